// Modules as engineers write them.
use crate::asking::{Told, same, shown};
use crate::pluscal::{CALLS, MUTEX};
use std::test::Fail;

pub(crate) const TOGGLE: &str = r#"---- MODULE Toggle ----
VARIABLE
  \* @type: Bool;
  x
Init == x = FALSE
Next == \/ x = FALSE /\ x' = TRUE
        \/ x = TRUE /\ x' = FALSE
Inv == x = FALSE
===="#;

pub(crate) const DIE_HARD: &str = r#"---- MODULE DieHard ----
EXTENDS Integers
VARIABLES
  \* @type: Int;
  big,
  \* @type: Int;
  small
Init == big = 0 /\ small = 0
ToBig == IF big + small <= 5
  THEN big' = big + small /\ small' = 0
  ELSE big' = 5 /\ small' = small - (5 - big)
ToSmall == IF big + small <= 3
  THEN big' = 0 /\ small' = big + small
  ELSE big' = big - (3 - small) /\ small' = 3
Next == \/ big' = 5 /\ small' = small
        \/ big' = big /\ small' = 3
        \/ big' = 0 /\ small' = small
        \/ big' = big /\ small' = 0
        \/ ToBig
        \/ ToSmall
Inv == big # 4
===="#;

pub(crate) const TWO_PHASE: &str = r#"---- MODULE TwoPhase ----
VARIABLES
  \* @type: Str -> Str;
  rm,
  \* @type: Str;
  tm,
  \* @type: Set(Str);
  ready,
  \* @type: Set({kind: Str, from: Str});
  msgs
RM == {"r1", "r2", "r3"}
Msg(k, f) == [kind |-> k, from |-> f]
Init == /\ rm = [r \in RM |-> "working"]
        /\ tm = "init" /\ ready = {} /\ msgs = {}
Receive(r) == /\ tm = "init" /\ Msg("Prepared", r) \in msgs
              /\ ready' = ready \cup {r}
              /\ UNCHANGED <<rm, tm, msgs>>
Decide(k, s) == /\ tm = "init" /\ tm' = s
                /\ msgs' = msgs \cup {Msg(k, "")}
                /\ UNCHANGED <<rm, ready>>
Prepare(r) == /\ rm[r] = "working"
              /\ rm' = [rm EXCEPT ![r] = "prepared"]
              /\ msgs' = msgs \cup {Msg("Prepared", r)}
              /\ UNCHANGED <<tm, ready>>
Give(r) == /\ rm[r] = "working"
           /\ rm' = [rm EXCEPT ![r] = "aborted"]
           /\ UNCHANGED <<tm, ready, msgs>>
Obey(r, k, s) == /\ Msg(k, "") \in msgs
                 /\ rm' = [rm EXCEPT ![r] = s]
                 /\ UNCHANGED <<tm, ready, msgs>>
Next == \/ ready = RM /\ Decide("Commit", "committed")
        \/ Decide("Abort", "aborted")
        \/ \E r \in RM: \/ Receive(r) \/ Prepare(r) \/ Give(r)
                        \/ Obey(r, "Commit", "committed")
                        \/ Obey(r, "Abort", "aborted")
Inv == \A a \in RM: \A b \in RM:
         ~(rm[a] = "aborted" /\ rm[b] = "committed")
===="#;

pub(crate) const PLUS: &str = r#"---- MODULE Plus ----
EXTENDS Integers, TLC
\* BEGIN TRANSLATION
VARIABLES
  \* @type: Int -> Str;
  pc,
  \* @type: Int;
  x
vars == << pc, x >>
ProcSet == (1..2)
Init == (* Global variables *)
        /\ x = 0
        /\ pc = [self \in ProcSet |-> "a"]
a(self) == /\ pc[self] = "a"
           /\ x' = x + 1
           /\ pc' = [pc EXCEPT ![self] = "Done"]
p(self) == a(self)
Terminating == /\ \A self \in ProcSet: pc[self] = "Done"
               /\ UNCHANGED vars
Next == (\E self \in 1..2: p(self))
           \/ Terminating
Spec == Init /\ [][Next]_vars
Termination == <>(\A self \in ProcSet: pc[self] = "Done")
\* END TRANSLATION
Inv == x <= 2
===="#;

pub(crate) const RING: &str = r#"---- MODULE Ring ----
EXTENDS Integers
VARIABLE
  \* @type: Int -> Bool;
  token
Init == token = [i \in 1..N |-> i = 1]
Next == \E i \in 1..N: token[i] /\ token' = [token EXCEPT
  ![i] = FALSE, ![IF i = N THEN 1 ELSE i + 1] = TRUE]
Inv == \A i \in 1..N: \A j \in 1..N: token[i] /\ token[j] => i = j
===="#;

pub(crate) const INC: &str = r#"---- MODULE Inc ----
EXTENDS Integers
CONSTANT
  \* @type: Int;
  c
Add(n) == n + c
===="#;

const PETERSON: &str =
    r#"------------------------------ MODULE Peterson ------------------------------
(* Mutual exclusion for two processes. *)
EXTENDS Naturals
VARIABLES flag, turn, pc
vars == <<flag, turn, pc>>
Other(p) == 1 - p
TypeOK == /\ flag \in [{0, 1} -> BOOLEAN]
          /\ turn \in {0, 1}
          /\ pc \in [{0, 1} -> {"idle", "set", "wait", "crit"}]
Init == /\ flag = [p \in {0, 1} |-> FALSE]
        /\ turn = 0
        /\ pc = [p \in {0, 1} |-> "idle"]
Step(p, from, to) == pc[p] = from /\ pc' = [pc EXCEPT ![p] = to]
Try(p) == Step(p, "idle", "set") /\ flag' = [flag EXCEPT ![p] = TRUE] /\ UNCHANGED turn
Yield(p) == Step(p, "set", "wait") /\ turn' = Other(p) /\ UNCHANGED flag
Enter(p) == /\ Step(p, "wait", "crit")
            /\ \/ flag[Other(p)] = FALSE
               \/ turn = p
            /\ UNCHANGED <<flag, turn>>
Leave(p) == Step(p, "crit", "idle") /\ flag' = [flag EXCEPT ![p] = FALSE] /\ UNCHANGED turn
Next == \E p \in {0, 1} : Try(p) \/ Yield(p) \/ Enter(p) \/ Leave(p)
Spec == Init /\ [][Next]_vars /\ \A p \in {0, 1} : WF_vars(Enter(p) \/ Leave(p))
MutualExclusion == ~(pc[0] = "crit" /\ pc[1] = "crit")
-----------------------------------------------------------------------------
THEOREM Spec => []MutualExclusion
============================================================================="#;

const QUEUE: &str = r#"---- MODULE BoundedQueue ----
EXTENDS Sequences, Naturals
CONSTANTS Message, N
ASSUME (N \in Nat) /\ (N > 0)
VARIABLES in, out, q
InChan == INSTANCE Channel WITH Data <- Message, chan <- in
OutChan == INSTANCE Channel WITH Data <- Message, chan <- out
Init == InChan!Init /\ OutChan!Init /\ (q = << >>)
BufRcv == /\ InChan!Rcv
          /\ q' = Append(q, in.val)
          /\ Len(q) < N
          /\ UNCHANGED out
BufSend == /\ q # << >>
           /\ OutChan!Send(Head(q))
           /\ q' = Tail(q)
           /\ UNCHANGED in
Next == \/ \E msg \in Message : InChan!Send(msg) /\ UNCHANGED <<out, q>>
        \/ BufRcv \/ BufSend
        \/ OutChan!Rcv /\ UNCHANGED <<in, q>>
Spec == Init /\ [][Next]_<<in, out, q>>
===="#;

const CACHE: &str = r#"---- MODULE WriteThroughCache ----
EXTENDS Naturals, Sequences, MemoryInterface
CONSTANT QLen
ASSUME QLen \in Nat \ {0}
VARIABLES mem, ctl, buf, cache, memQ
NoVal == CHOOSE v : v \notin Val
M == INSTANCE InternalMemory
Init == /\ M!IInit
        /\ cache = [p \in Proc |-> [a \in Adr |-> NoVal]]
        /\ memQ = <<>>
TypeInvariant == /\ mem \in [Adr -> Val]
                 /\ ctl \in [Proc -> {"rdy", "busy", "waiting", "done"}]
                 /\ cache \in [Proc -> [Adr -> Val \cup {NoVal}]]
                 /\ memQ \in Seq(Proc \X MReq)
Coherence == \A p, q \in Proc, a \in Adr :
               (NoVal \notin {cache[p][a], cache[q][a]}) => (cache[p][a] = cache[q][a])
DoWr(p) == LET r == buf[p]
           IN /\ (ctl[p] = "busy") /\ (r.op = "Wr")
              /\ Len(memQ) < QLen
              /\ cache' = [q \in Proc |-> IF (p = q) \/ (cache[q][r.adr] # NoVal)
                                           THEN [cache[q] EXCEPT ![r.adr] = r.val]
                                           ELSE cache[q]]
              /\ memQ' = Append(memQ, <<p, r>>)
              /\ buf' = [buf EXCEPT ![p] = NoVal]
              /\ ctl' = [ctl EXCEPT ![p] = "done"]
              /\ UNCHANGED <<memInt, mem>>
vmem == LET f[i \in 0 .. Len(memQ)] ==
              IF i = 0 THEN mem
              ELSE IF memQ[i][2].op = "Rd" THEN f[i-1]
                   ELSE [f[i-1] EXCEPT ![memQ[i][2].adr] = memQ[i][2].val]
        IN f[Len(memQ)]
Next == \/ \E p \in Proc : \/ M!Req(p) \/ M!Rsp(p)
                           \/ DoWr(p)
                           \/ \E a \in Adr : Evict(p, a)
        \/ MemQWr \/ MemQRd
===="#;

const ELECTION: &str = r#"---- MODULE Election ----
EXTENDS Integers, FiniteSets, TLC
CONSTANTS
    \* @type: Set(NODE);
    Nodes,
    \* @type: Int;
    MaxTerm
VARIABLES
    \* @type: NODE -> Int;
    term,
    \* @type: NODE -> Str;
    role,
    \* @type: Set({ kind: Str, src: NODE, dst: NODE, term: Int });
    messages
\* @typeAlias: MSG = { kind: Str, src: NODE, dst: NODE, term: Int };
vars == <<term, role, messages>>
Quorums == {Q \in SUBSET Nodes : 2 * Cardinality(Q) > Cardinality(Nodes)}
Max(a, b) == IF a > b THEN a ELSE b
Send(m) == messages' = messages \union {m}
Init ==
    /\ term = [n \in Nodes |-> 0]
    /\ role = [n \in Nodes |-> "follower"]
    /\ messages = {}
Timeout(n) ==
    /\ role[n] \in {"follower", "candidate"}
    /\ term[n] < MaxTerm
    /\ term' = [term EXCEPT ![n] = @ + 1]
    /\ role' = [role EXCEPT ![n] = "candidate"]
    /\ messages' = messages \union
         { [kind |-> "ask", src |-> n, dst |-> d, term |-> term[n] + 1] : d \in Nodes \ {n} }
Grant(n, m) ==
    LET later == m.term > term[n]
        reply == [kind |-> "grant", src |-> n, dst |-> m.src, term |-> m.term]
    IN  /\ m.kind = "ask" /\ m.dst = n
        /\ \/ /\ later
              /\ term' = [term EXCEPT ![n] = Max(@, m.term)]
              /\ role' = [role EXCEPT ![n] = "follower"]
              /\ Send(reply)
           \/ /\ ~later
              /\ UNCHANGED <<term, role, messages>>
Win(n) ==
    /\ role[n] = "candidate"
    /\ \E Q \in Quorums :
         \A q \in Q \ {n} :
           \E m \in messages : /\ m.kind = "grant"
                               /\ m.src = q /\ m.dst = n
                               /\ m.term = term[n]
    /\ role' = [role EXCEPT ![n] = "leader"]
    /\ UNCHANGED <<term, messages>>
Next == \E n \in Nodes :
          \/ Timeout(n)
          \/ Win(n)
          \/ \E m \in messages : Grant(n, m)
OneLeader == \A a, b \in Nodes :
    (role[a] = "leader" /\ role[b] = "leader" /\ term[a] = term[b]) => a = b
===="#;

const CLOCK: &str = r#"---- MODULE HourClock ----
EXTENDS Naturals
VARIABLE hr
HCini == hr \in (1 .. 12)
HCnxt == hr' = IF hr # 12 THEN hr + 1 ELSE 1
HC == HCini /\ [][HCnxt]_hr
--------------------------------------------------------------
THEOREM HC => []HCini
===="#;

const CHANNEL: &str = r#"-------------------------- MODULE Channel --------------------------
EXTENDS Naturals
CONSTANT Data
VARIABLE chan
TypeInvariant == chan \in [val : Data, rdy : {0, 1}, ack : {0, 1}]
Init == /\ TypeInvariant
        /\ chan.ack = chan.rdy
Send(d) == /\ chan.rdy = chan.ack
           /\ chan' = [chan EXCEPT !.val = d, !.rdy = 1 - @]
Rcv == /\ chan.rdy # chan.ack
       /\ chan' = [chan EXCEPT !.ack = 1 - @]
Next == (\E d \in Data : Send(d)) \/ Rcv
Spec == Init /\ [][Next]_chan
===================================================================="#;

const LOCKS: &str = r#"---- MODULE Locks ----
EXTENDS Integers, Sequences
CONSTANTS Clients, Keys
VARIABLES owner, waiting
Free == "free"
Init == owner = [k \in Keys |-> Free] /\ waiting = [k \in Keys |-> <<>>]
Acquire(c, k) ==
  CASE owner[k] = Free -> /\ owner' = [owner EXCEPT ![k] = c]
                          /\ UNCHANGED waiting
    [] owner[k] = c -> UNCHANGED <<owner, waiting>>
    [] OTHER -> /\ waiting' = [waiting EXCEPT ![k] = Append(@, c)]
                /\ UNCHANGED owner
Release(c, k) ==
  /\ owner[k] = c
  /\ IF waiting[k] = <<>>
       THEN owner' = [owner EXCEPT ![k] = Free] /\ UNCHANGED waiting
       ELSE /\ owner' = [owner EXCEPT ![k] = Head(waiting[k])]
            /\ waiting' = [waiting EXCEPT ![k] = Tail(@)]
Next == \E c \in Clients, k \in Keys : Acquire(c, k) \/ Release(c, k)
Fair == \A c \in Clients, k \in Keys : WF_<<owner, waiting>>(Release(c, k))
Total == ApaFoldSeqLeft(LAMBDA s, x : s + x, 0, <<1, 2, 3>>)
Safe == \A k \in Keys : owner[k] # Free => owner[k] \in Clients
Live == \A c \in Clients, k \in Keys : (c \in {waiting[k][i] : i \in DOMAIN waiting[k]}) ~> owner[k] = c
===="#;

const RECURSION: &str = r#"---- MODULE Sums ----
EXTENDS Integers, FiniteSets
RECURSIVE SumOf(_, _)
SumOf(f, S) == IF S = {} THEN 0
               ELSE LET x == CHOOSE y \in S : TRUE
                    IN f[x] + SumOf(f, S \ {x})
fact[n \in Nat] == IF n = 0 THEN 1 ELSE n * fact[n - 1]
LOCAL Twice(n) == 2 * n
Pairs == {<<a, b>> : a \in 1..3, b \in 1..3}
Grid == [i, j \in 1..3 |-> i * j]
Unit == [x \in {} |-> x] @@ (1 :> 2 @@ 3 :> 4)
Trace == LET n == 3 m == n^2 IN [k \in 1..m |-> k % n]
===="#;

const GOOD: [&str; 16] = [
    TOGGLE, DIE_HARD, TWO_PHASE, PLUS, RING, INC, PETERSON, QUEUE, CACHE, ELECTION, CLOCK, CHANNEL,
    LOCKS, RECURSION, MUTEX, CALLS,
];

#[test]
fn modules_from_outside_are_read(rt: HostRuntime) -> Result<(), Fail> {
    for text in &GOOD {
        let found = shown(rt.alloc(), text.as_bytes(), Told::Presence);
        same(&rt, found, "a module")?;
    }
    Ok(())
}
