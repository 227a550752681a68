//! Calls and their operands, a case a line, and two sets a line for functions that are picked: written by
//! bench/rows.py. After the point of a call stands the name of a field or the number of an item.

pub(crate) const CASES: &str = r#"at f1T21dk nk
at fkB6mdw3T1kCk0D5 nm
at fmb1mc43T0 n0
at f nk
at f n0
at f2Tm3Bm n3
at fkBk0B/1C0 nk
at f2a22b2kbwmT6kcw n3
at fkc6md/kT52T72A7 nk
at f n3
at f2dw1c6mD32F/2B4 n2
at fkb5mc31Tk2D3 nk
at f3T20A63a12B7 n2
at f n2
at f1Ck1dw1T1kT01b1 nk
at fkb1md/2d/mD6 nk
at f2b3mTkmd52d0mak nm
at f0Tw2T3mB4 n2
at f0B1 n0
at fma60T7 n3
at q/0mm:bA nw
at q4m1k:ab nk
at q3/7mk1002:cTA nk
at q1ww6:cb n2
at q02/w0:aT n2
at q65640:bA n1
at q77/3651:Cdd nw
at qk4/k:dB n0
at q36/1:FD n1
at q77:c n7
at qm77:bC n2
at q27: nm
at qk0233:bd nm
at q052:AA n2
at q56k:D nw
at qmk:d n1
at qmmk20m2:bdT n3
at qmw704w71:AFB n0
at q02m:A n1
at q610:d n2
update fma60C23Cw n3 nk
update f0d40T2kB33d43B4 nk nk
update f3ck3d22T02a00T/ n2 n0
update f0c73a22a4 nk n2
update f2dw3d4kBm n2 n6
update f0bm0a2 n0 nm
update f1T02T/0T/3b/ n0 nm
update f0F/mD0 nm n4
update fmTm1T70b60a0 nm n1
update fmT03c0mF62ak nm n0
update f n3 n3
update f1T6 n1 n5
update fkd5mTk n0 nm
update f3b2mT2 n3 n1
update f3bm3d20bw1d3 n3 n6
update f2T6mam0B52d6 n2 n1
update f3bk1b/ nk nw
update f2Dk0bw3T21Tw1Tk n1 nw
update f nm nk
update f2cm3C7 n2 n2
update q56/:Tc n7 n3
update q/5: n2 n/
update qk7: n2 n2
update q7030kw0:bTd nw nw
update q732/63/:caC nk n1
update q7436ww/44:dcT n/ n6
update q53200m7:dDC nm n3
update q5530k61:abd n1 nm
update qwk37:Ta n7 nm
update q72mm:aD n/ n7
update qw36k/kk7:cdC nm n5
update qk2:c nw n5
update q/71:aC n2 n6
update q/23:ab n2 nm
update q45w43/7m1:dTb n3 nk
update q26k:bb nk n4
update qkm/2:aB n7 n4
update q: n5 nk
update q3m: nw n2
update q51k7/:ab nw n0
domain f0T5mTw0Bm
domain f
domain f1d61b/
domain fmT00C3mT4
domain f1Tk1Tk3a7
domain f0c50a4
domain f0Tm2TwkF/
domain f1A4
domain f0Tm2T2kB1kT00T7
domain f1FwmT6
domain f1T02d/ka3
domain f1b6mT6mD70d1
domain f2T4mT/0b12aw
domain f1T7kd03B11bm0T6
domain f
domain f2b53T6mT7ka4
domain f2F03B7kcm2Fw
domain f1Tmma03a32T53C4
domain f2d/0D6
domain f1T/2T50T0
domain r30
domain r3m
domain r03
domain r2m
domain r1m
domain t
domain t7
domain t46
domain tmk7
domain t72k4
domain tm267/
domain t30/w71
domain t3415m42
domain q:
domain q7m3wm21:CdT
domain qk43:Bb
domain q3k:c
domain q1026:ba
domain q7m0:aA
domain q:
domain q523/55m5:aCD
domain q54m720m:ABD
domain q:
domain q7/:
domain q7mw465m:BDC
domain q361/:ba
domain q:
domain q2:c
domain q7:
domain qk3:
domain q12/5:ad
domain q/k5w71k7:CCF
domain qkm05wm45:bCT
join f1Bw f0c03c4
join fkB5 fka2mcm
join f3Akkc3mB53c2 f2bmmd6
join f1d50T33D/3Tk f3T4kFmkT1
join f2d5mT70B6 f0T4kA63Tk
join fmb7kT4mTm f2bw2dw
join fkcw2T11T4 f3C52T3mA5
join f f
join f1Am3F02b51d1 f1d03T7
join f1d13d50D6 f
join f f
join f f1bw1a10T5
join f f3D10Cw
join f2b40B/2a5mD2 fmc40c4
join f fkb/3b0
join fma10bmkT/ f0A/1B5
join f f1c30b/0bm
join fkT32c53d1kT6 f2a5mA7
join fmBkmb62B0 fkd62Cwmb7
join fmT7 fmB1
same f0D2ma71C6 f0D2ma71C6
same fkb02d01d5 fkb02D01d5
same f0c63d62bk f1F60c63d62Bk
same f2a5 f2Tk1Dm1c51D3
same f3Fw1am3Tw f1b0kT/0c/mTk
same fmdk1TkkB/mDw fmdk1Tkkb/mDw
same f2c10c63b5 f3dkmd41d6
same f2b/2d23C/0d6 f2b/2c23C/0d62d2
same f0C/kT5 fkT50C/
same f1F/1T/ fmbkmD3
same f0T/2B1 f0T/2B1
same f0T6maw fmaw0T6
same f2A53T7mT/kaw f
same f3Tk f3T73Tk
same f0A72c10T1 f0A72c10Tm
same f0T03c7 f3B51bk
same f3d30A03d0mD1 f3D30A03d0mD13d3
same f2b4kTmmT53Tm fkTm3TmmT42b4
same f3b2kCk0T1 fkCk3b20T1
same fmT4 f1a70T1mT7
choose bB f3d/3C3mA7 f3d/3a3mA73C3
choose bd f f
choose bT f1b/mCk f2dk
choose bb f1T13F63B6 f1T13F63B6
choose ba f3a2 f3a2
choose bB f0T4ka13C7 f2F3kTm0ak
choose ba fkTk2T13b/mA3 f0F/3b/2T1kTkmA3mA/
choose bb f0c1ka2mT60d3 f0c10d3mT6ka2
choose bb f3dw f3dw
choose bT f f
choose bT f f
choose bT f1dm1C/mTm1dw f1F/1C/1dwmTm1bm
choose bA fkCm0c71a2 f1bw0T42T3
choose bc f0a03B22Tm f2Tm2Tk3B20a0
choose bC fkT1kTm0Ck f
choose bB fmT0 f
choose bT fkc0 f1T5kF6
choose bT f1T6kB53A1 f3A1kB51T6
choose bb fmT/1c42D6 fmT31c42D6mT/
choose bT f f2D0
same g g
same g1Ab0aDkBb g1Ab0aDkBb
same gkdTkTF2ab gkaFkdT2ab
same g g
same g2TT2da1Ab2TT g2TT2da1Ab2TT
same g3Aa g
same g0Tc0bc3cT g1aT2cT2Ad
same g2TdmDC gmTdkdT
same g1BTkcAmac g1dTmackcA
same g gkTA2Tb
same g0bTmbT g1TD1Dd2cT
same g2bc0ATkTB gkFc2bckTB0Aa0AT
same g g
same gmcTkTT gkTTmdTmcT
same g3Ta g2AT
same g0cA1BT3aC0dd g0cA1BT3aC0dd
same gkCb0Ab0cbmdF g1aFkbc
same g2TT1Tc g1cc2TT1Tc
same g0aT1Db1CA g3bc2CTmbT
same g0dB g1FB0dB
choose bA g1Tc3ad0cB1Td g0Fc1Tc3ad0cB1Td
choose bT g2TT0aT g2TT0aT
choose bT gmBbkdc2dd gkdc2ddmBb
choose ba g g2TF2bD2cF
choose bd g2Ta1AT g1Fa2da1AT
choose bb g3Ac g0FA3AA3Ac
choose bT g3cd2dd g0Fd3cd2dD
choose bb g0bF0dT g
choose bc g1ac0cF2TT gmTa1aC0TB
choose bT g0cT2BB0bb g0cT2BT0bb
choose bD gmcB2bc1dd g1dd2BcmcB
choose bT g g
choose ba g2cDkBCmbbkTB gmFD2cDkBCmbbkTB
choose bA gmaCkbBkTC0FT gkTCmaCkbB0Fc
choose bb gmCT gmCT
choose bA gkbT g1FCkTT
choose bB gmbdkDdmbT3TC gmCdmbTkDd3TC
choose bA g3Fb1aD g1aD3Fb
choose ba gmTT1FTmTc1TT gkFTmTT1FTmTc1TT
choose bT g2cC1Tb1cd2CC g2cC1cD2CC1Tb1cd
same q0k:d q0k:d
same qm212:FA qm21:Fb
same qk26:ad qk26:ad
same q3k26m7/:aFA qk36mk0m:Aca
same q0: q37m6:cC
same q5:b q5:b
same q5mm:cd q5mm:cd
same q//6m:Tb q2wk:aA
same qm424/:cC qm420:da
same q: q/w752k/:ABd
same qm:B q34k74:Bb
same q7: q7:
same q0/:A q31k5702:cFa
same q/w1w:Td q4k5/317:bFF
same qk/k0347k:DBa qk/k0347k:DBa
same qmm042/7wm:CCa qmm042/70:CCa
same qk5m5636:cAD qw17m:dF
same q00/m:Bb q522w5:cb
same q132:Ad q55k:ab
same q2k73:dT qk15:Ad
choose bB q71166:ad q71166:TB
choose bD q621:bb q6210:bb
choose bT q506:da q506m:CA
choose bT q340w016:dDD q340w016:aDA
choose bC q/k235w676:bdc q/k235w676:bdc
choose ba q0731k742:bbc q0731k740:dcF
choose bc q367:A q:
choose bT q623647/:Cda q6/3:Bd
choose ba q0/mw3/kk:CAA q0/mw3/kk:cab
choose bT q4: q/72:dB
choose bA q03/72//:Aaa q7300750:FDb
choose bB qw015/2m:aaa qw015/2m:adF
choose ba q711//0m:ABD q711//0mm:ABD
choose ba q544:cc q544:Ad
choose ba qk: q:
choose bT q3626w:TC q5476w:AA
choose bT q2: qk:
choose bT q620k6k7:cba qk:
choose bd q2ww5m172:DaD q6//:dC
choose bb q16m//:Fa q13m244/:bDa
same r4k r46
same r04 r0k
same r5k r51
same r32 r42
same r/1 r/1
same r03 rm3
same r71 r7/
same r12 r10
same rkw rk3
same r66 r26
choose bT r56 r/6
choose bD r07 r0/
choose bT rmw rm4
choose bT r32 r42
choose bT r1k r0k
choose bT r7w r7k
choose bB rmm rm4
choose ba r1w r10
choose bb r3/ r3/
choose bF rm6 rm6
same t7/4 t7/4
same t46m7 t16m7
same t4m5/ t4m4/
same tw/2 tw/2
same t41 t41
same t3 t2
same t234 t234
same t7 t7
same t t
same tw t2
choose bT t t
choose bb tm tm
choose bB t t
choose bD t00 t0k
choose ba t7/ t76
choose bF t4w6m t466m
choose bd t0 t/
choose bb t25 t21
choose bd t1 t/
choose bc t0 t0
make bT n3 n1 bC n1 n5 bT nk n/ bd n1 n1
make bT n1 n/ bT n0 nk ba n0 n5
make bc n1 n/
make bb n1 n7 bb n3 n2
make ba nk n0
make bd n1 nw bc n3 n4 bb n0 n3 bd n3 nk
make ba n2 nk bb nm n0 bb nk n7 bT nk n6
make bC n1 n4 bB n0 n4 bT nm nw bb n1 nw
make bA n2 n7 bb n1 n2 bT n0 n7 bF n3 n/
make ba n1 nw bF n0 n1 bT nk n6 bF n1 n4
make bc nk nm bT n3 n2 bC n1 n/
make ba n0 nw bb nk n7 bT n0 n5
make bT nk n0 bd n0 n/
make bc n3 n/ bA nk n5
make bc nk n6 bB nk nm
make bA nk n4
make bT n0 n7 bA n2 n4 bA n1 nk bT n1 n0
make bT nm n7 bT n0 n/
make bb nk n6 bT n1 nk bd n2 n5 bC n3 n6
make bb n3 nw bC nk n1 bd nm n6
functions skTkb s
functions s1D smc0T0F
functions s3c1D s2d2d2a
functions s0Amc1T s3c3T1C
functions s3Akd3D skT
functions s3A0d s0A
functions smd smA2D2a
functions s3Bkb s1T3b
functions s0b0b0A s2d
functions s1T s3BmT0A
functions smd2b s1a
functions s2T2T2T s1d2Amb
functions s s2A2D3b
functions s1T0c2b skT0b
functions s3T s2d
functions s3B2F0B s
functions s0a1a skBka
functions ska s3T2T1T
functions skb2B s0b2C1a
functions smAkd s2c
field.n rw5
field.p r2/
field.p r05
field.n r33
field.p r46
field.p r/0
field.n r11
field.n rm0
field.p rk7
field.p r64
with_field.p rk7 n6
with_field.n rw5 n7
with_field.p r62 nm
with_field.p r64 nk
with_field.p r50 n2
with_field.n r02 n4
with_field.n r/2 n6
with_field.p r57 n0
with_field.n r62 nk
with_field.n r07 n6
item.1 t67
item.1 t/
item.3 t620
item.2 t0w31
item.1 t43
item.2 tw614
item.2 t560
item.2 t1k
item.1 tw5
item.1 t44
with_item.2 t/1 n7
with_item.1 t4/7 nw
with_item.2 tw6 nm
with_item.3 t3k0 n1
with_item.3 t/k7m nw
with_item.3 tm21 nw
with_item.4 t1/w1 n2
with_item.1 t77 n2
with_item.1 t23 n1
with_item.4 t663m nm
length qmw0:Td
length q7/1123/:daT
length q547w4w4:aCB
length q76w:dF
length q:
length q:
length qk4k0kw3:TCa
length q414:cT
length q2:a
length q6w275:CB
length q047/2:Ta
length q7:c
length q4m00k4w5:Dbd
length qm13/:DF
length q7/m0022w:Fbb
length q3:
length q2w7:Ac
length qw0245:AD
length qwwk/425w/:Baa
length q444:BC
push q01m/272:bTb nk
push qm51m55/:baa n2
push qkk134k102:acT nw
push qk5: n5
push q5w2:Ca nw
push q32076:aa n/
push q202m42/7w:aaT nk
push q4/3/531:cFT n3
push q: nm
push q656252w:TCA n3
push q626k546:Adc nm
push q2/k04k/0:aCd n3
push q2//6w3620:cCB n1
push q13m23:AF n4
push q44k6wk5k4:CCa nm
push q5k674034/:abb n4
push q626:A n4
push qkw6mw/23w:BdC n6
push q0/2:d n0
push q5k0:A n6
glue q34m1:bC q2:c
glue qkw3k62m:Aaa q163:F
glue q615:B q3k2m352:CbF
glue q: q552:c
glue q6: q221:Bb
glue q43w6w:cT q7wmm/31:cDa
glue q773//m/:Fdc q5:B
glue q3341k35/3:dcb q106kk33m6:TTa
glue q77w4237m6:bBb q67:
glue q3//146w0:bcb qmk:C
glue q11kw5k6:FFd q611:ca
glue q1:d q362k:aa
glue q0/5w7650m:cda q0/2:Ac
glue qk:T q32m/457:TDB
glue qk477754:dFF q24k2k61:dbb
glue qk:b q156:Ab
glue q/: q67mw7:Tc
glue q5: q644//2m25:cab
glue qm/4/31w:dac q5:
glue q06/5137w:DCd q7m1:c
rest q60k:Fc
rest q614m:bF
rest q051:FC
rest q432:cB
rest q5:F
rest qwwmk:aA
rest q6:
rest q22/2:cb
rest q151/3w/5:AdB
rest qwk//534:Fda
rest qk305:Da
rest q76:
rest q6k76:aF
rest q3:
rest q717m17011:CFa
rest qmkm16/6:cdA
rest q6k:
rest q/3kk2:db
rest q73:
rest qw:D
slice q6w3:bc n0 n1
slice q5136:Ac n/ nw
slice q206w:aF n2 n7
slice q57/:bb n4 n1
slice q3mmk/23:CFF n2 n1
slice q025/:CD n4 n4
slice qw74/m00:cbD n5 n0
slice q2mk:aD n5 n4
slice q44/2:AD n4 n2
slice q43//:Fa nk n5
slice qk/3:CD n/ n7
slice q60567:Td n2 nw
slice q3k4:aD nk n1
slice q53/5:dd n2 n3
slice q65kk50115:aFd n0 nk
slice q615:cb n3 n2
slice q4k4:cc nk n1
slice qm233177/7:dFa nk nw
slice q/k4:aD n2 n2
slice q7267/:ba n/ n0
slice q/5m5/0/:dbb nw n4
slice q7536:Fb n1 nw
slice q/10/42w0:aDb nw n/
slice qw/w04m167:add n0 n1
slice qm47:dA n/ n2
slice q152:BF n0 nw
slice qmkk:dA n5 n1
slice q352447272:Cda n1 nm
slice q/1//7:Tb n0 n7
slice q731562m:bCd n2 nk
slice q5k1/74k2m:FAa nw n3
slice q63/2k:FT n1 n4
slice q1k2:cb n/ n0
slice q7427k:Ta nk n2
slice q5132:TF n2 n1
slice q200/mm54:dbD n4 n1
slice qm/63w:BC n2 nm
slice q6k54:ba nm n5
slice q3w7:TT n4 n2
slice qkk/:BC n1 n2
length q354665351023020:aaaB
length q2103144073563164:abcd
domain q173207157232177:aaaB
domain q4252224363245161:abcd
"#;

pub(crate) const PICKS: &str = r#"pick s0TkA0T s
pick skbmT3T s0bmD1T
pick s2F1T s0c3T
pick smDmT skTkd
pick s3b0A2c s0b0TkC
pick smA2A s0b
pick s skbkD1A
pick skA1c s1b2T
pick smbkb smbmT2B
pick s0b2Tkc s3d
pick skamb0c s0b1T
pick s0T1c1a smD0T
pick s s2a3A
pick s s0bkc
pick s0TmT3T s2b2TkA
pick s0a smC3TkD
pick s s2a2c
pick smd1ckc s2T3d3a
pick s s
pick skTmTmB skD
"#;
