//! Calls on sequences, a case a line: the call, a sequence, what else it takes, the bits that vary, and
//! the texts of what it gives under all their values, where the first bit changes fastest: `none` where
//! there is none. A sequence is its places and, after a colon, the bits of its length, the lowest
//! first. A number has 4 bits: a digit, / (-1), m (1 or 0 by d) or k (2 or 1 by d); a bit is a letter,
//! in capitals its negation, or T or F. By a model of lists.

pub(crate) const CASES: &str = r#"length : x  => 0
length 5:F x  => 0
length 5:T x  => 1
length 5:a x a => 0; 1
length 123:ab x ab => 0; 1; 2; 3
length 1234567:abc x abc => 0; 1; 2; 3; 4; 5; 6; 7
length 123:Ab x ab => 1; 0; 3; 2
length 123:aa x a => 0; 3
length 1234567:TTT x  => 7
length 012345670123456:aaaB x ab => none; none; 0; 7
push : 5  => <<5>>
push 1:a 5 a => <<5>>; <<1, 5>>
push 123:ab 5 ab => <<5>>; <<1, 5>>; <<1, 2, 5>>; <<1, 2, 3, 5>>
push 12:a m ad => <<0>>; <<1, 0>>; <<1>>; <<1, 1>>
push mk1:ab k abd => <<1>>; <<0, 1>>; <<0, 1, 1>>; <<0, 1, 1, 1>>; <<2>>; <<1, 2>>; <<1, 2, 2>>; <<1, 2, 1, 2>>
push 1234567:aTb 0 ab => <<1, 2, 0>>; <<1, 2, 3, 0>>; <<1, 2, 3, 4, 5, 6, 0>>; <<1, 2, 3, 4, 5, 6, 7, 0>>
push 12345:aT / a => <<1, 2, -1>>; <<1, 2, 3, -1>>
push 1234567:baT 7 ab => <<1, 2, 3, 4, 7>>; <<1, 2, 3, 4, 5, 6, 7>>; <<1, 2, 3, 4, 5, 7>>; <<1, 2, 3, 4, 5, 6, 7, 7>>
rest : x  => none
rest 5:F x  => none
rest 5:a x a => none; <<>>
rest 123:ab x ab => none; <<>>; <<2>>; <<2, 3>>
rest mkm:ab x abd => none; <<>>; <<1>>; <<1, 0>>; none; <<>>; <<2>>; <<2, 1>>
rest 1234567:aTb x ab => <<2>>; <<2, 3>>; <<2, 3, 4, 5, 6>>; <<2, 3, 4, 5, 6, 7>>
rest 12345670:TaB x ab => <<2, 3, 4, 5>>; <<2, 3, 4, 5, 6, 7>>; <<>>; <<2, 3>>
rest 12345670:bac x abc => none; <<2>>; <<>>; <<2, 3>>; <<2, 3, 4>>; <<2, 3, 4, 5, 6>>; <<2, 3, 4, 5>>; <<2, 3, 4, 5, 6, 7>>
glue : :  => <<>>
glue : 1:a a => <<>>; <<1>>
glue 1:a : a => <<>>; <<1>>
glue 1:a 2:b ab => <<>>; <<1>>; <<2>>; <<1, 2>>
glue 123:ab 456:cd abcd => <<>>; <<1>>; <<1, 2>>; <<1, 2, 3>>; <<4>>; <<1, 4>>; <<1, 2, 4>>; <<1, 2, 3, 4>>; <<4, 5>>; <<1, 4, 5>>; <<1, 2, 4, 5>>; <<1, 2, 3, 4, 5>>; <<4, 5, 6>>; <<1, 4, 5, 6>>; <<1, 2, 4, 5, 6>>; <<1, 2, 3, 4, 5, 6>>
glue 123:ab 456:ab ab => <<>>; <<1, 4>>; <<1, 2, 4, 5>>; <<1, 2, 3, 4, 5, 6>>
glue 123:ab 456:BA ab => <<4, 5, 6>>; <<1, 4>>; <<1, 2, 4, 5>>; <<1, 2, 3>>
glue mk1:ab k:c abcd => <<>>; <<0>>; <<0, 1>>; <<0, 1, 1>>; <<1>>; <<0, 1>>; <<0, 1, 1>>; <<0, 1, 1, 1>>; <<>>; <<1>>; <<1, 2>>; <<1, 2, 1>>; <<2>>; <<1, 2>>; <<1, 2, 2>>; <<1, 2, 1, 2>>
glue 1:a 2345670:bcT abc => <<2, 3, 4, 5>>; <<1, 2, 3, 4, 5>>; <<2, 3, 4, 5, 6>>; <<1, 2, 3, 4, 5, 6>>; <<2, 3, 4, 5, 6, 7>>; <<1, 2, 3, 4, 5, 6, 7>>; <<2, 3, 4, 5, 6, 7, 0>>; <<1, 2, 3, 4, 5, 6, 7, 0>>
glue 1234567:abT 0:d abd => <<1, 2, 3, 4>>; <<1, 2, 3, 4, 5>>; <<1, 2, 3, 4, 5, 6>>; <<1, 2, 3, 4, 5, 6, 7>>; <<1, 2, 3, 4, 0>>; <<1, 2, 3, 4, 5, 0>>; <<1, 2, 3, 4, 5, 6, 0>>; <<1, 2, 3, 4, 5, 6, 7, 0>>
glue 123:TF 456:Fa a => <<1>>; <<1, 4, 5>>
at : 1  => none
at 5:F 1  => none
at 5:a 1 a => none; 5
at 5:a 0 a => none; none
at 123:ab / ab => none; none; none; none
at 123:ab 0 ab => none; none; none; none
at 123:ab 1 ab => none; 1; 1; 1
at 123:ab 2 ab => none; none; 2; 2
at 123:ab 3 ab => none; none; none; 3
at 123:ab 4 ab => none; none; none; none
at 123:ab m abd => none; none; none; none; none; 1; 1; 1
at mk2:ab k abd => none; 0; 0; 0; none; none; 2; 2
at 1234567:abc 6 abc => none; none; none; none; none; none; 6; 6
at 1234567:abc 7 abc => none; none; none; none; none; none; none; 7
at 54321:Fa k ad => none; 5; none; 4
update : 15  => <<>>
update 5:a 17 a => <<>>; <<7>>
update 123:ab /7 ab => <<>>; <<1>>; <<1, 2>>; <<1, 2, 3>>
update 123:ab 07 ab => <<>>; <<1>>; <<1, 2>>; <<1, 2, 3>>
update 123:ab 17 ab => <<>>; <<7>>; <<7, 2>>; <<7, 2, 3>>
update 123:ab 37 ab => <<>>; <<1>>; <<1, 2>>; <<1, 2, 7>>
update 123:ab 47 ab => <<>>; <<1>>; <<1, 2>>; <<1, 2, 3>>
update 123:ab m7 abd => <<>>; <<1>>; <<1, 2>>; <<1, 2, 3>>; <<>>; <<7>>; <<7, 2>>; <<7, 2, 3>>
update mk2:ab km abd => <<>>; <<0>>; <<0, 1>>; <<0, 1, 2>>; <<>>; <<1>>; <<1, 1>>; <<1, 1, 2>>
update 1234567:aTb 50 ab => <<1, 2>>; <<1, 2, 3>>; <<1, 2, 3, 4, 0, 6>>; <<1, 2, 3, 4, 0, 6, 7>>
slice : 10  => <<>>
slice : 11  => none
slice 5:a 11 a => none; <<5>>
slice 5:a 10 a => <<>>; <<>>
slice 5:a 0/ a => <<>>; <<>>
slice 123:ab 01 ab => none; none; none; none
slice 123:ab /2 ab => none; none; none; none
slice 123:ab 12 ab => none; none; <<1, 2>>; <<1, 2>>
slice 123:ab 13 ab => none; none; none; <<1, 2, 3>>
slice 123:ab 22 ab => none; none; <<2>>; <<2>>
slice 123:ab 23 ab => none; none; none; <<2, 3>>
slice 123:ab 14 ab => none; none; none; none
slice 123:ab 73 ab => <<>>; <<>>; <<>>; <<>>
slice 123:ab m2 abd => none; none; none; none; none; none; <<1, 2>>; <<1, 2>>
slice 123:ab 1k abd => none; <<1>>; <<1>>; <<1>>; none; none; <<1, 2>>; <<1, 2>>
slice mkm:ab mk abd => none; none; none; none; none; none; <<1, 2>>; <<1, 2>>
slice 1234567:abc 26 abc => none; none; none; none; none; none; <<2, 3, 4, 5, 6>>; <<2, 3, 4, 5, 6>>
slice 1234567:TaT 26 a => none; <<2, 3, 4, 5, 6>>
slice 1234567:abc 57 abc => none; none; none; none; none; none; none; <<5, 6, 7>>
"#;
