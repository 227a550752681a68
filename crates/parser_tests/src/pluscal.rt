// Translations of PlusCal algorithms, as its translator writes them.

pub(crate) const MUTEX: &str = r#"---- MODULE Mutex ----
EXTENDS Integers, TLC
(* --fair algorithm Mutex {
  variables flag = [i \in {0, 1} |-> FALSE], turn = 0;
  process (proc \in {0, 1}) {
    ncs: while (TRUE) {
      skip;
      a1: flag[self] := TRUE;
      a2: turn := 1 - self;
      a3: await (flag[1 - self] = FALSE) \/ (turn = self);
      cs: skip;
      a4: flag[self] := FALSE; } } } *)
\* BEGIN TRANSLATION (chksum(pcal) = "5d1f8b0c" /\ chksum(tla) = "9c1d2b7e")
VARIABLES flag, turn, pc

vars == << flag, turn, pc >>

ProcSet == ({0, 1})

Init == (* Global variables *)
        /\ flag = [i \in {0, 1} |-> FALSE]
        /\ turn = 0
        /\ pc = [self \in ProcSet |-> "ncs"]

ncs(self) == /\ pc[self] = "ncs"
             /\ TRUE
             /\ pc' = [pc EXCEPT ![self] = "a1"]
             /\ UNCHANGED << flag, turn >>

a1(self) == /\ pc[self] = "a1"
            /\ flag' = [flag EXCEPT ![self] = TRUE]
            /\ pc' = [pc EXCEPT ![self] = "a2"]
            /\ turn' = turn

a2(self) == /\ pc[self] = "a2"
            /\ turn' = 1 - self
            /\ pc' = [pc EXCEPT ![self] = "a3"]
            /\ flag' = flag

a3(self) == /\ pc[self] = "a3"
            /\ (flag[1 - self] = FALSE) \/ (turn = self)
            /\ pc' = [pc EXCEPT ![self] = "cs"]
            /\ UNCHANGED << flag, turn >>

cs(self) == /\ pc[self] = "cs"
            /\ TRUE
            /\ pc' = [pc EXCEPT ![self] = "a4"]
            /\ UNCHANGED << flag, turn >>

a4(self) == /\ pc[self] = "a4"
            /\ flag' = [flag EXCEPT ![self] = FALSE]
            /\ pc' = [pc EXCEPT ![self] = "ncs"]
            /\ turn' = turn

proc(self) == ncs(self) \/ a1(self) \/ a2(self) \/ a3(self) \/ cs(self)
                 \/ a4(self)

Next == (\E self \in {0, 1}: proc(self))

Spec == /\ Init /\ [][Next]_vars
        /\ WF_vars(Next)

\* END TRANSLATION 
MutualExclusion == \A i, j \in ProcSet : i # j => ~(pc[i] = "cs" /\ pc[j] = "cs")
===="#;

pub(crate) const CALLS: &str = r#"---- MODULE Calls ----
EXTENDS Integers, Sequences, TLC
CONSTANT N
\* BEGIN TRANSLATION
CONSTANT defaultInitValue
VARIABLES queue, total, pc, stack, msg, left

vars == << queue, total, pc, stack, msg, left >>

ProcSet == (1..N) \cup {0}

Init == (* Global variables *)
        /\ queue = << >>
        /\ total = 0
        (* Procedure send *)
        /\ msg = [ self \in ProcSet |-> defaultInitValue]
        (* Process client *)
        /\ left = [self \in 1..N |-> 3]
        /\ stack = [self \in ProcSet |-> << >>]
        /\ pc = [self \in ProcSet |-> CASE self \in 1..N -> "c1"
                                        [] self = 0 -> "s1"]

put(self) == /\ pc[self] = "put"
             /\ Assert(Len(queue) <= 3, 
                       "Failure of assertion at line 9, column 5.")
             /\ queue' = Append(queue, msg[self])
             /\ pc' = [pc EXCEPT ![self] = Head(stack[self]).pc]
             /\ msg' = [msg EXCEPT ![self] = Head(stack[self]).msg]
             /\ stack' = [stack EXCEPT ![self] = Tail(stack[self])]
             /\ UNCHANGED << total, left >>

send(self) == put(self)

c1(self) == /\ pc[self] = "c1"
            /\ IF left[self] > 0
                  THEN /\ left' = [left EXCEPT ![self] = left[self] - 1]
                       /\ /\ msg' = [msg EXCEPT ![self] = <<self, left'[self]>>]
                          /\ stack' = [stack EXCEPT ![self] = << [ procedure |->  "send",
                                                                   pc        |->  "c1",
                                                                   msg       |->  msg[self] ] >>
                                                               \o stack[self]]
                       /\ pc' = [pc EXCEPT ![self] = "put"]
                  ELSE /\ pc' = [pc EXCEPT ![self] = "Done"]
                       /\ UNCHANGED << stack, msg, left >>
            /\ UNCHANGED << queue, total >>

client(self) == c1(self)

s1 == /\ pc[0] = "s1"
      /\ \/ /\ queue # << >>
            /\ LET m == Head(queue) IN
                 /\ PrintT(<<"got", m>>)
                 /\ total' = total + m[2]
            /\ queue' = Tail(queue)
         \/ /\ \A self \in 1..N: pc[self] = "Done"
            /\ UNCHANGED << queue, total >>
      /\ \E k \in {"s1", "Done"}:
           pc' = [pc EXCEPT ![0] = k]
      /\ UNCHANGED << stack, msg, left >>

server == s1

(* Allow infinite stuttering to prevent deadlock on termination. *)
Terminating == /\ \A self \in ProcSet: pc[self] = "Done"
               /\ UNCHANGED vars

Next == server
           \/ (\E self \in ProcSet: send(self))
           \/ (\E self \in 1..N: client(self))
           \/ Terminating

Spec == /\ Init /\ [][Next]_vars
        /\ \A self \in 1..N : WF_vars(client(self)) /\ WF_vars(send(self))
        /\ WF_vars(server)

Termination == <>(\A self \in ProcSet: pc[self] = "Done")

\* END TRANSLATION
===="#;
