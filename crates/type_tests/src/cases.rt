//! Types in postfix notation (see `postfix`) with what is to come of them.

// A type and its text.
pub(crate) const TEXTS: &str = r#"b => Bool
i => Int
s => Str
u => U
3 => d
iS => Set(Int)
iSQ => Seq(Set(Int))
is> => Int -> Str
isb>> => Int -> Str -> Bool
is>b> => (Int -> Str) -> Bool
isT => <<Int, Str>>
isTT => <<<<Int, Str>>>>
iSfR => {f: Set(Int)}
iSfA => {f: Set(Int), a}
ifsgC => {f: Int, g: Str, c}
isbO => (Int, Str) => Bool
bO => () => Bool
ibOs> => ((Int) => Bool) -> Str
ibOS => Set((Int) => Bool)
ibOuO => ((Int) => Bool) => U"#;

// Two types and their texts with variables that are numbered together.
pub(crate) const TOGETHER: &str = r#"43> 3 => a -> b, b
ifA 0 => {f: Int, a}, b
2fC 2 => {f: a, b}, a
12O 21> => (a) => b, b -> a
iS s => Set(Int), Str
4T 5fA => <<a>>, {f: b, c}"#;

// Pairs of types that are made equal one after the other, and after each pair what both are then, or the two parts
// that clash.
pub(crate) const STEPS: &str = r#"ifA ifsgR => {f: Int, g: Str} = {f: Int, g: Str}
i 0S => Int # Set(a)
0 i => Int = Int
i 0 => Int = Int
0 0 => a = a
0 1, 1 2, 0 i, 2 2 => a = a; a = a; Int = Int; Int = Int
3 1, 3 0, 3 2 => b = b; a = a; a = a
0 1S, 1 i, 0 iS => Set(b) = Set(b); Int = Int; Set(Int) = Set(Int)
0 0S => a # Set(a)
0S 0 => Set(a) # a
0 1S, 1 0 => Set(b) = Set(b); b # Set(b)
01> 1S0> => b # Set(b)
is> ib> => Str # Bool
isT isbT => <<Int, Str>> # <<Int, Str, Bool>>
u w => U # W
u u => U = U
012T isbT => <<Int, Str, Bool>> = <<Int, Str, Bool>>
010T isiT => <<Int, Str, Int>> = <<Int, Str, Int>>
010T isbT, 0 u => Int # Bool; U = U
01O ibO => (Int) => Bool = (Int) => Bool
iQ iS => Seq(Int) # Set(Int)
ifsgR sgifR => {f: Int, g: Str} = {g: Str, f: Int}
ifR ifsgR => {f: Int} # {f: Int, g: Str}
ifR sgR => {f: Int} # {g: Str}
ifA sfB => Int # Str
ifA sgA => {f: Int, a} # {g: Str, a}
ifA ifB, ifsgB ifsgR => {f: Int, a} = {f: Int, a}; {f: Int, g: Str} = {f: Int, g: Str}
ifA sgB => {f: Int, g: Str, f} = {g: Str, f: Int, f}
ifA sgB, ifA ifsgbhR => {f: Int, g: Str, f} = {g: Str, f: Int, f}; {f: Int, g: Str, h: Bool} = {f: Int, g: Str, h: Bool}
ifA sgB, ifA ifsgE => {f: Int, g: Str, f} = {g: Str, f: Int, f}; {f: Int, g: Str, f} = {f: Int, g: Str, f}
ifA i => {f: Int, a} # Int
1fA iSf2gR, 1 iS => {f: Set(Int), g: c} = {f: Set(Int), g: c}; Set(Int) = Set(Int)
5 i => not issued
ifE 9fR => not issued"#;

// Aliases, a text, and the type that it says, shown; or where it is no type's; or which alias is unknown.
pub(crate) const READINGS: &str = r#" | Bool ;; Bool
 | Int ;; Int
 | Str ;; Str
 | U ;; U
 | I ;; I
 | A_1 ;; A_1
 | a ;; a
 | b07 ;; a
 | Set(Int) ;; Set(Int)
 | Seq(Set(a)) ;; Seq(Set(a))
 | Int -> Str ;; Int -> Str
 | Int -> Str -> Bool ;; Int -> Str -> Bool
 | (Int -> Str) -> Bool ;; (Int -> Str) -> Bool
 | Int -> (Str -> Bool) ;; Int -> Str -> Bool
 | <<Int>> ;; <<Int>>
 | <<<<a>>, b>> ;; <<<<a>>, b>>
 | {f: Int} ;; {f: Int}
 | {f: Int, g: Str} ;; {f: Int, g: Str}
 | {f: Set(Int), r} ;; {f: Set(Int), a}
 | {Int: Int, IF: Str, 1a: Bool} ;; {Int: Int, IF: Str, 1a: Bool}
 | () => Bool ;; () => Bool
 | (Int) => Bool ;; (Int) => Bool
 | (Int, a) => a ;; (Int, a) => a
 | Int -> (Str) => Bool ;; Int -> ((Str) => Bool)
 | (Int) => Str -> Bool ;; (Int) => Str -> Bool
 | ((Int) => Bool) -> Str ;; ((Int) => Bool) -> Str
 | (Int) => (Str) => Bool ;; (Int) => (Str) => Bool
 | ((Int)) ;; Int
 | ((Int)) => Bool ;; (Int) => Bool
 | (((a))) -> b ;; a -> b
 |   Int   ;; Int
 | Set ( Int ) ;; Set(Int)
 | Int->Str ;; Int -> Str
 | << Int ,Str >> ;; <<Int, Str>>
 | { f : Int , r } ;; {f: Int, a}
 | ( ) => Int ;; () => Int
 | <<a, b, a>> ;; <<a, b, a>>
 | <<c, c1, c2, c3, c4, c5, c6, c7, c8, c9, c10, c11, c12, c13, c14, c15, c16, c17, c18, c19, c20, c21, c22, c23, c24, c25, c26, c27, c28, c29, c30, c31, c32, c33, c34, c35, c36, c37, c38, c39, c40, c41, c42, c43, c44, c45, c46, c47, c48, c49, c50, c51, c52, c53, c54>> ;; <<a, b, c, d, e, f, g, h, i, j, k, l, m, n, o, p, q, r, s, t, u, v, w, x, y, z, a1, b1, c1, d1, e1, f1, g1, h1, i1, j1, k1, l1, m1, n1, o1, p1, q1, r1, s1, t1, u1, v1, w1, x1, y1, z1, a2, b2, c2>>
 | {f: a, a} ;; {f: a, b}
 | {f: Int, f} ;; {f: Int, a}
 | <<{f: Int, r}, {f: Str, r}>> ;; <<{f: Int, a}, {f: Str, a}>>
 | <<{f: Int, g: Int, r}, {g: Str, f: Int, r}>> ;; <<{f: Int, g: Int, a}, {g: Str, f: Int, a}>>
 | {f: {f: Int, r}, r} ;; {f: {f: Int, a}, a}
 | {f: {g: Int, r}, r} ;; bad 18
 | <<{f: Int, r}, {g: Int, r}>> ;; bad 25
 | <<{f: Int, r}, {f: Int, g: Int, r}>> ;; bad 33
 | {f: Int, f: Str} ;; bad 10
 | {F: Int, F} ;; bad 10
foo=Int | $foo ;; Int
foo=Set(a) | <<a, $foo, $foo, a>> ;; <<a, Set(b), Set(c), a>>
foo=Int;bar=Set($foo) | $bar ;; Set(Int)
bar=Set($foo);foo=Int | $bar ;; unknown bar
bar=Set($foo);foo=Int | $foo ;; Int
foo=Intt;foo=Str | $foo ;; Str
foo=Int;foo=Str | $foo ;; Int
foo=$foo | $foo ;; unknown foo
foo={f: Int, r} | <<$foo, {g: Int, r}>> ;; <<{f: Int, a}, {g: Int, b}>>
foo=a -> b | $foo -> c ;; (a -> b) -> c
foo=Int -> Str | Bool -> $foo ;; Bool -> Int -> Str
1a=Int | $1a ;; Int
 | $foo ;; unknown foo
 | <<$x, $y>> ;; unknown x
foo=Int | <<$foo, $y>> ;; unknown y
 | <<$foo ;; unknown foo
 | $foo, ;; unknown foo
 | $foo -> Intt ;; unknown foo
foo=Int | $foo -> Intt ;; bad 11
foo=Int | <<$foo, $bar, $x> ;; unknown bar
 | <Int$foo ;; bad 1
foo=Int | <<$foo ;; bad 6
 | $ foo ;; bad 1
 | $1 ;; bad 2
 |  ;; bad 0
 |     ;; bad 3
 | Intt ;; bad 3
 | In ;; bad 2
 | Se ;; bad 2
 | Set ;; bad 3
 | Set( ;; bad 4
 | Set(Int ;; bad 7
 | Set(Int)) ;; bad 8
 | Set Int ;; bad 4
 | a1b ;; bad 2
 | aB ;; bad 1
 | 1 ;; bad 0
 | _A ;; bad 0
 | A-B ;; bad 2
 | A - > B ;; bad 3
 | A ->  ;; bad 5
 | -> A ;; bad 0
 | <Int> ;; bad 1
 | <<>> ;; bad 2
 | <<Int,>> ;; bad 6
 | <<Int> ;; bad 6
 | <<Int> > ;; bad 6
 | {} ;; bad 1
 | {r} ;; bad 2
 | {f Int} ;; bad 3
 | {f: } ;; bad 4
 | {f: Int,} ;; bad 8
 | {f: Int, 1} ;; bad 10
 | {f: Int, r, g: Str} ;; bad 10
 | (Int, Str) ;; bad 10
 | (Int, Str) -> Bool ;; bad 11
 | () ;; bad 2
 | () -> Int ;; bad 3
 | (Int ;; bad 4
 | Int) ;; bad 3
 | Int Str ;; bad 4
 | Int = > Str ;; bad 4
 | (Int) = > Str ;; bad 7
 | Int -> Str => Bool ;; bad 11
 | a? ;; bad 1"#;

// Types, closed, and whether no operator type stands in them.
pub(crate) const CLOSED: &str = r#"b => Bool plain
0 => Int plain
u => U plain
0SQ => Seq(Set(Int)) plain
0sfB> => Int -> {f: Str} plain
0fsgC => {f: Int, g: Str} plain
A => {} plain
0s1T => <<Int, Str, Int>> plain
0bO => (Int) => Bool
0bOfA => {f: (Int) => Bool}
ibOS => Set((Int) => Bool)"#;

// Text literals and their types.
pub(crate) const LITERALS: &str = r#"1_OF_NODE => NODE
a_b_OF_T_1 => T_1
1_OF_A_OF_B => B
1_OF_ => Str
_OF_NODE => Str
1_OF_node => Str
1_OF_Node => Str
a b_OF_P => Str
1_OF_OF_P => P
1_OF_P_OF_ => Str
1OF_P => Str
 => Str"#;

// Pairs of types that are made equal one after the other; what is bound then, in order, and the root of a type.
pub(crate) const ROOTS: &str = r#"0 i | 0 => 0 Int
0 i | 1 => 0 b
0 1, 1 2, 2 iS | 2 => 120 Set(Int)
0 1S, 1 i | 0 => 01 Set(b)
ifA ifsgC | 3 => r d
0 i, 1 s | 01> => 01 a -> b"#;
