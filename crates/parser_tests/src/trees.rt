// The modules of the tables, each with its tree as the rules of the language give it.
use crate::asking::{Told, same, shown};
use crate::outside::{DIE_HARD, INC, PLUS, RING, TOGGLE, TWO_PHASE};
use std::test::Fail;

const TOGGLE_SHOWN: &str = r#"Toggle
declare variable x < @type: Bool;>
define Init <> (eq x FALSE)
define Next <> (or (and (eq x FALSE) (eq (prime x) TRUE)) (and (eq x TRUE) (eq (prime x) FALSE)))
define Inv <> (eq x FALSE)"#;

const INC_SHOWN: &str = r#"Inc Integers
declare constant c < @type: Int;>
define Add n <> (add n c)"#;

const DIE_HARD_SHOWN: &str = r#"DieHard Integers
declare variable big < @type: Int;> variable small < @type: Int;>
define Init <> (and (eq big 0) (eq small 0))
define ToBig <> (if (le (add big small) 5) (and (eq (prime big) (add big small)) (eq (prime small) 0)) (and (eq (prime big) 5) (eq (prime small) (sub small (sub 5 big)))))
define ToSmall <> (if (le (add big small) 3) (and (eq (prime big) 0) (eq (prime small) (add big small))) (and (eq (prime big) (sub big (sub 3 small))) (eq (prime small) 3)))
define Next <> (or (and (eq (prime big) 5) (eq (prime small) small)) (and (eq (prime big) big) (eq (prime small) 3)) (and (eq (prime big) 0) (eq (prime small) small)) (and (eq (prime big) big) (eq (prime small) 0)) ToBig ToSmall)
define Inv <> (ne big 4)"#;

const RING_SHOWN: &str = r#"Ring Integers
declare variable token < @type: Int -> Bool;>
define Init <> (eq token (fun [ i ] (range 1 N) (eq i 1)))
define Next <> (exists [ i ] (range 1 N) (and (apply token i) (eq (prime token) (except 1 1 [ @ ] token i FALSE (if (eq i N) 1 (add i 1)) TRUE))))
define Inv <> (forall [ i ] (range 1 N) (forall [ j ] (range 1 N) (implies (and (apply token i) (apply token j)) (eq i j))))"#;

// `\/ Receive(r) \/ Prepare(r) \/ Give(r)` stands in one line, so its second and third `\/` are infix.
const TWO_PHASE_SHOWN: &str = r#"TwoPhase
declare variable rm < @type: Str -> Str;> variable tm < @type: Str;> variable ready < @type: Set(Str);> variable msgs < @type: Set({kind: Str, from: Str});>
define RM <> (set "r1 "r2 "r3)
define Msg k f <> (record kind from k f)
define Init <> (and (eq rm (fun [ r ] RM "working)) (and (eq tm "init) (eq ready (set)) (eq msgs (set))))
define Receive r <> (and (and (eq tm "init) (in (Msg "Prepared r) msgs)) (eq (prime ready) (cup ready (set r))) (unchanged (tuple rm tm msgs)))
define Decide k s <> (and (and (eq tm "init) (eq (prime tm) s)) (eq (prime msgs) (cup msgs (set (Msg k ")))) (unchanged (tuple rm ready)))
define Prepare r <> (and (eq (apply rm r) "working) (eq (prime rm) (except 1 [ @ ] rm r "prepared)) (eq (prime msgs) (cup msgs (set (Msg "Prepared r)))) (unchanged (tuple tm ready)))
define Give r <> (and (eq (apply rm r) "working) (eq (prime rm) (except 1 [ @ ] rm r "aborted)) (unchanged (tuple tm ready msgs)))
define Obey r k s <> (and (in (Msg k ") msgs) (eq (prime rm) (except 1 [ @ ] rm r s)) (unchanged (tuple tm ready msgs)))
define Next <> (or (and (eq ready RM) (Decide "Commit "committed)) (Decide "Abort "aborted) (exists [ r ] RM (or (or (Receive r) (Prepare r) (Give r)) (Obey r "Commit "committed) (Obey r "Abort "aborted))))
define Inv <> (forall [ a ] RM (forall [ b ] RM (not (and (eq (apply rm a) "aborted) (eq (apply rm b) "committed)))))"#;

const PLUS_SHOWN: &str = r#"Plus Integers TLC
declare variable pc < BEGIN TRANSLATION
 @type: Int -> Str;> variable x < @type: Int;>
define vars <> (tuple pc x)
define ProcSet <> (range 1 2)
define Init <> (and (eq x 0) (eq pc (fun [ self ] ProcSet "a)))
define a self <> (and (eq (apply pc self) "a) (eq (prime x) (add x 1)) (eq (prime pc) (except 1 [ @ ] pc self "Done)))
define p self <> (a self)
define Terminating <> (and (forall [ self ] ProcSet (eq (apply pc self) "Done)) (unchanged vars))
define Next <> (or (exists [ self ] (range 1 2) (p self)) Terminating)
define Spec <> (and Init (temporal (boxed Next vars)))
define Termination <> (temporal (forall [ self ] ProcSet (eq (apply pc self) "Done)))
define Inv < END TRANSLATION> (le x 2)"#;

const MODULES: [(&str, &str); 6] = [
    (TOGGLE, TOGGLE_SHOWN),
    (INC, INC_SHOWN),
    (DIE_HARD, DIE_HARD_SHOWN),
    (RING, RING_SHOWN),
    (TWO_PHASE, TWO_PHASE_SHOWN),
    (PLUS, PLUS_SHOWN),
];

#[test]
fn the_modules_of_the_tables_have_their_trees(rt: HostRuntime) -> Result<(), Fail> {
    for (text, expected) in &MODULES {
        let found = shown(rt.alloc(), text.as_bytes(), Told::Units);
        same(&rt, found, *expected)?;
    }
    Ok(())
}
