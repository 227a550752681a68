// The protocols of examples/, written by docs/protocols.py.
pub(crate) const PROTOCOLS: &str = r#"
>root Peterson 1 4
---- MODULE Peterson ----
(* Mutual exclusion of two processes that share three variables: G. L. Peterson, Myths about
   the mutual exclusion problem, Information Processing Letters 12(3), 1981. A process raises
   its flag, gives the turn to the other, and waits until the other's flag is down or the turn
   is its own. Each line of its program is one step.
   Inv: at most one process is in its critical section. It holds. Inductive is the stronger
   statement by which one proves it: every step keeps it, from whatever state. *)
EXTENDS Integers, FiniteSets
VARIABLES
  \* Where each process stands.
  \* @type: Int -> Str;
  pc,
  \* Which process wants to enter, or is inside.
  \* @type: Int -> Bool;
  flag,
  \* Which process goes first when both want to enter.
  \* @type: Int;
  turn

Processes == {0, 1}
Places == {"idle", "polite", "waiting", "critical"}
Other(p) == 1 - p

Init == /\ pc = [p \in Processes |-> "idle"]
        /\ flag = [p \in Processes |-> FALSE]
        /\ turn = 0

Go(p, from, to) == pc[p] = from /\ pc' = [pc EXCEPT ![p] = to]

RaiseFlag(p) == /\ Go(p, "idle", "polite")
                /\ flag' = [flag EXCEPT ![p] = TRUE]
                /\ UNCHANGED turn

GiveTurn(p) == /\ Go(p, "polite", "waiting")
               /\ turn' = Other(p)
               /\ UNCHANGED flag

Enter(p) == /\ Go(p, "waiting", "critical")
            /\ flag[Other(p)] => turn = p
            /\ UNCHANGED <<flag, turn>>

Leave(p) == /\ Go(p, "critical", "idle")
            /\ flag' = [flag EXCEPT ![p] = FALSE]
            /\ UNCHANGED turn

Next == \E p \in Processes: RaiseFlag(p) \/ GiveTurn(p) \/ Enter(p) \/ Leave(p)

vars == <<pc, flag, turn>>
Spec == Init /\ [][Next]_vars

Inv == Cardinality({p \in Processes : pc[p] = "critical"}) <= 1

TypeOK == /\ pc \in [Processes -> Places]
          /\ flag \in [Processes -> BOOLEAN]
          /\ turn \in Processes

Inductive ==
  /\ TypeOK
  /\ \A p \in Processes: flag[p] <=> pc[p] # "idle"
  /\ \A p \in Processes:
       pc[p] = "critical" /\ pc[Other(p)] \in {"waiting", "critical"} => turn = p

THEOREM Spec => []Inv
====
>root BoundedBuffer 1 6
---- MODULE BoundedBuffer ----
(* Producers and consumers share a buffer as threads do in Java: one lock, and one set of
   waiting threads for both sides, of which notify wakes any one. Known from M. Charpentier, An
   example of debugging Java with a model checker, and from M. Kuppe's tutorial BlockingQueue.
   Inv: the buffer keeps its bound, and not all threads wait. It breaks at level 7: a consumer
   that takes the item wakes the other consumer in place of the producer, and soon all wait.
   Where Size is at least half the number of threads, as with Size == 2, it holds. *)
EXTENDS Integers, Sequences
VARIABLES
  \* The items, of which each is its producer's name.
  \* @type: Seq(Str);
  buffer,
  \* The threads that wait to be woken.
  \* @type: Set(Str);
  waiting

Producers == {"p1"}
Consumers == {"c1", "c2"}
Threads == Producers \cup Consumers
Size == 1

Init == buffer = <<>> /\ waiting = {}

Notify ==
  IF waiting = {}
  THEN UNCHANGED waiting
  ELSE \E thread \in waiting: waiting' = waiting \ {thread}

Wait(thread) == waiting' = waiting \cup {thread} /\ UNCHANGED buffer

Put(producer) ==
  /\ producer \notin waiting
  /\ IF Len(buffer) < Size
     THEN buffer' = Append(buffer, producer) /\ Notify
     ELSE Wait(producer)

Get(consumer) ==
  /\ consumer \notin waiting
  /\ IF buffer # <<>>
     THEN buffer' = Tail(buffer) /\ Notify
     ELSE Wait(consumer)

Next == \/ \E producer \in Producers: Put(producer)
        \/ \E consumer \in Consumers: Get(consumer)

Inv == Len(buffer) <= Size /\ waiting # Threads
====
>root ReadersWriters 1 5
---- MODULE ReadersWriters ----
(* Readers and writers of one file: P. J. Courtois, F. Heymans and D. L. Parnas, Concurrent
   control with readers and writers, CACM 14(10), 1971. Here all wait in one queue and are let
   in by its order, so that nobody starves, as in the module ReadersWriters of the TLA+ examples.
   Inv: while a writer is inside nobody else is, whoever is inside does not wait, and the queue
   has requests alone. It holds. *)
EXTENDS Integers, Sequences, FiniteSets
VARIABLES
  \* Who reads.
  \* @type: Set(Int);
  readers,
  \* Who writes.
  \* @type: Set(Int);
  writers,
  \* Who waits for what, in the order of arrival.
  \* @type: Seq({kind: Str, actor: Int});
  queue

Actors == 1..3
Requests == [kind: {"read", "write"}, actor: Actors]

Busy == readers \cup writers
Waiting == {queue[i].actor : i \in DOMAIN queue}

Init == readers = {} /\ writers = {} /\ queue = <<>>

Ask(actor, kind) ==
  /\ actor \notin Busy \cup Waiting
  /\ queue' = Append(queue, [kind |-> kind, actor |-> actor])
  /\ UNCHANGED <<readers, writers>>

\* The first of the queue goes in, as soon as it may.
Admit ==
  /\ queue # <<>> /\ writers = {}
  /\ LET first == Head(queue) IN
     CASE first.kind = "read" -> /\ readers' = readers \cup {first.actor}
                                 /\ UNCHANGED writers
       [] first.kind = "write" -> /\ readers = {}
                                  /\ writers' = {first.actor}
                                  /\ UNCHANGED readers
  /\ queue' = Tail(queue)

Stop(actor) ==
  /\ readers' = readers \ {actor}
  /\ writers' = writers \ {actor}
  /\ UNCHANGED queue

Next == \/ \E actor \in Actors, kind \in {"read", "write"}: Ask(actor, kind)
        \/ Admit
        \/ \E actor \in Busy: Stop(actor)

Inv == /\ queue \in Seq(Requests)
       /\ Busy \cap Waiting = {}
       /\ writers = {} \/ (readers = {} /\ Cardinality(writers) = 1)
====
>root ThreePhaseCommit 1 12
---- MODULE ThreePhaseCommit ----
(* Three-phase commit: D. Skeen, Nonblocking commit protocols, SIGMOD 1981. A coordinator asks
   for votes, announces that it is going to commit, and commits once all know. So where it
   crashes the participants need not wait: who was told goes on to commit, who was not aborts.
   Inv: no participant aborts where another commits. It breaks at level 8, as messages may be
   late: the coordinator crashes when one participant has read the announcement; this one
   commits, and another, whose message is still under way, aborts. Skeen's network is never
   late: with Late == FALSE it holds. *)
VARIABLES
  \* What each participant has come to.
  \* @type: Str -> Str;
  state,
  \* What the coordinator has come to.
  \* @type: Str;
  coordinator,
  \* All messages that were sent. Those of the coordinator go to everybody.
  \* @type: Set({kind: Str, from: Str});
  messages

Participants == {"p1", "p2", "p3"}
Late == TRUE

Message(kind, from) == [kind |-> kind, from |-> from]
IsSent(kind) == Message(kind, "coordinator") \in messages
AllSent(kind) == \A p \in Participants: Message(kind, p) \in messages

Init == /\ state = [p \in Participants |-> "working"]
        /\ coordinator = "asking"
        /\ messages = {}

\* The coordinator: it goes on, and tells everybody, or it crashes.
Tell(from, kind) == /\ coordinator = from
                    /\ coordinator' = kind
                    /\ messages' = messages \cup {Message(kind, "coordinator")}
                    /\ UNCHANGED state
Announce == AllSent("yes") /\ Tell("asking", "prepare")
Commit == AllSent("prepared") /\ Tell("prepare", "commit")
Abort == Tell("asking", "abort")
Crash == /\ coordinator' = "crashed"
         /\ UNCHANGED <<state, messages>>

\* A participant: it goes on, with a message of its own or none.
Move(p, from, to) == state[p] = from /\ state' = [state EXCEPT ![p] = to]
Answer(p, from, to, kind) == /\ Move(p, from, to)
                             /\ messages' = messages \cup {Message(kind, p)}
                             /\ UNCHANGED coordinator
Silent(p, from, to) == Move(p, from, to) /\ UNCHANGED <<coordinator, messages>>

TimeOut(p) ==
  /\ coordinator = "crashed"
  /\ \/ Silent(p, "working", "aborted")
     \/ (Late \/ ~IsSent("prepare")) /\ Silent(p, "ready", "aborted")
     \/ Silent(p, "prepared", "committed")

Step(p) ==
  \/ Answer(p, "working", "ready", "yes")
  \/ Silent(p, "working", "aborted")
  \/ IsSent("prepare") /\ Answer(p, "ready", "prepared", "prepared")
  \/ IsSent("abort") /\ Silent(p, "ready", "aborted")
  \/ IsSent("commit") /\ Silent(p, "prepared", "committed")
  \/ TimeOut(p)

Next == Announce \/ Commit \/ Abort \/ Crash \/ \E p \in Participants: Step(p)

Inv == \A p, q \in Participants: ~(state[p] = "aborted" /\ state[q] = "committed")
====
>root LeaderElection 1 2
---- MODULE LeaderElection ----
(* Election of a leader on a ring in one direction: E. Chang and R. Roberts, An improved
   algorithm for decentralized extrema-finding in circular configurations of processes,
   CACM 22(5), 1979. Whoever wants to lead sends its number around. A candidate swallows
   smaller numbers, everybody else passes on what comes; whose own number comes back leads.
   Inv: where there is a leader all others have given up, and a number that is under way is
   that of a node which is awake. It holds. *)
EXTENDS Integers
VARIABLES
  \* What each node has come to.
  \* @type: Int -> Str;
  state,
  \* The numbers that are under way to each node.
  \* @type: Int -> Set(Int);
  inbox

N == 4
Nodes == 1..N

\* The number of each node. They stand in no order.
\* @type: () => Seq(Int);
Number == <<3, 1, 4, 2>>

Successor[node \in Nodes] == (node % N) + 1

Init == /\ state = [node \in Nodes |-> "asleep"]
        /\ inbox = [node \in Nodes |-> {}]

Start(node) ==
  /\ state[node] = "asleep"
  /\ state' = [state EXCEPT ![node] = "candidate"]
  /\ inbox' = [inbox EXCEPT ![Successor[node]] = @ \cup {Number[node]}]

Receive(node) == \E number \in inbox[node]:
  LET passes == state[node] \in {"asleep", "passive"} \/ number > Number[node]
      reached == CASE passes -> "passive"
                   [] number = Number[node] -> "leader"
                   [] OTHER -> state[node]
  IN /\ state' = [state EXCEPT ![node] = reached]
     /\ inbox' = [inbox EXCEPT ![node] = @ \ {number},
                               ![Successor[node]] = IF passes THEN @ \cup {number} ELSE @]

Next == \E node \in Nodes: Start(node) \/ Receive(node)

UnderWay == UNION {inbox[node] : node \in Nodes}

Inv == /\ \A node, other \in Nodes:
            state[node] = "leader" /\ other # node => state[other] = "passive"
       /\ \A node \in Nodes: Number[node] \in UnderWay => state[node] # "asleep"
====
>root Paxos 1 4
---- MODULE Paxos ----
(* Consensus on one value: L. Lamport, The part-time parliament, ACM TOCS 16(2), 1998, in the
   form of his module Paxos. The leader of a ballot asks (1a) for promises to ignore earlier
   ballots (1b), proposes (2a) the value that was voted for in the latest ballot it hears of, or
   any value, and the acceptors vote for it (2b). Messages stay, so each may come late or twice.
   Inv: no two values are chosen, and all messages and promises are of their kinds. It holds. *)
EXTENDS Integers, FiniteSets
\* @typeAlias: message = {kind: Str, ballot: Int, acceptor: Str, voted: Int, value: Str};
VARIABLES
  \* The latest ballot that an acceptor takes part in.
  \* @type: Str -> Int;
  promised,
  \* The ballot of its latest vote, and the value of this vote.
  \* @type: Str -> {ballot: Int, value: Str};
  vote,
  \* All messages that were sent.
  \* @type: Set($message);
  messages

Acceptors == {"a1", "a2", "a3"}
Quorums == {Q \in SUBSET Acceptors : 2 * Cardinality(Q) > Cardinality(Acceptors)}
Ballots == 1..2
Values == {"v1", "v2"}
NoVote == [ballot |-> 0, value |-> "none"]

Message(kind, ballot, acceptor, last) ==
  [kind |-> kind, ballot |-> ballot, acceptor |-> acceptor,
   voted |-> last.ballot, value |-> last.value]
Send(message) == messages' = messages \cup {message}
Sent(kind, ballot) == {m \in messages : m.kind = kind /\ m.ballot = ballot}

Init == /\ promised = [a \in Acceptors |-> 0]
        /\ vote = [a \in Acceptors |-> NoVote]
        /\ messages = {}

Ask(ballot) == Send(Message("1a", ballot, "none", NoVote)) /\ UNCHANGED <<promised, vote>>

Promise(a) == \E m \in messages:
  /\ m.kind = "1a" /\ m.ballot > promised[a]
  /\ promised' = [promised EXCEPT ![a] = m.ballot]
  /\ Send(Message("1b", m.ballot, a, vote[a]))
  /\ UNCHANGED vote

Propose(ballot, value) ==
  /\ Sent("2a", ballot) = {}
  /\ \E Q \in Quorums:
       LET promises == {m \in Sent("1b", ballot) : m.acceptor \in Q}
           votes == {m \in promises : m.voted > 0}
       IN /\ \A a \in Q: \E m \in promises: m.acceptor = a
          /\ \/ votes = {}
             \/ \E m \in votes: m.value = value /\ \A other \in votes: other.voted <= m.voted
  /\ Send(Message("2a", ballot, "none", [ballot |-> ballot, value |-> value]))
  /\ UNCHANGED <<promised, vote>>

Vote(a) == \E m \in messages:
  /\ m.kind = "2a" /\ m.ballot >= promised[a]
  /\ promised' = [promised EXCEPT ![a] = m.ballot]
  /\ vote' = [vote EXCEPT ![a].ballot = m.ballot, ![a].value = m.value]
  /\ Send(Message("2b", m.ballot, a, vote'[a]))

Next == \/ \E ballot \in Ballots: Ask(ballot) \/ \E value \in Values: Propose(ballot, value)
        \/ \E a \in Acceptors: Promise(a) \/ Vote(a)

Chosen == {value \in Values : \E ballot \in Ballots, Q \in Quorums: \A a \in Q:
             Message("2b", ballot, a, [ballot |-> ballot, value |-> value]) \in messages}

Inv == /\ Cardinality(Chosen) <= 1
       /\ promised \in [Acceptors -> Ballots \cup {0}]
       /\ messages \subseteq [kind: {"1a", "1b", "2a", "2b"}, ballot: Ballots,
            acceptor: Acceptors \cup {"none"}, voted: 0..2, value: Values \cup {"none"}]
====
>root Lease 1 4
---- MODULE Lease ----
(* Leases: C. Gray and D. Cheriton, Leases: an efficient fault-tolerant mechanism for
   distributed file cache consistency, SOSP 1989. A server lends a file to one client for a
   term. Clocks run at one rate, and show different times: a client counts the term from when
   it asked, the server from when it granted, which is later. So nobody compares two clocks, and
   a lost message harms nothing. Clients may renew their lease while it runs.
   Inv: at most one client holds the lease, and only the one the server means. It holds. *)
EXTENDS Integers
VARIABLES
  \* The time that each machine's clock shows.
  \* @type: Str -> Int;
  clock,
  \* To whom the lease was granted last, and until when by the server's clock.
  \* @type: {client: Str, until: Int};
  granted,
  \* Until when each client holds the lease, by the client's own clock.
  \* @type: Str -> Int;
  until,
  \* Requests and answers, with the time at which the client asked, by its own clock.
  \* @type: Set({client: Str, sent: Int});
  requests,
  \* @type: Set({client: Str, sent: Int});
  answers

Clients == {"c1", "c2"}
Machines == Clients \cup {"server"}
Term == 2

Holds(client) == clock[client] < until[client]

Init == /\ clock \in [Machines -> 0..1]
        /\ granted = [client |-> "nobody", until |-> 0]
        /\ until = [client \in Clients |-> 0]
        /\ requests = {} /\ answers = {}

Tick == /\ clock' = [machine \in Machines |-> clock[machine] + 1]
        /\ UNCHANGED <<granted, until, requests, answers>>

\* A client asks where it holds no lease, or one that has run for half its term.
Ask(client) ==
  /\ until[client] - clock[client] <= Term \div 2
  /\ requests' = requests \cup {[client |-> client, sent |-> clock[client]]}
  /\ UNCHANGED <<clock, granted, until, answers>>

Grant == \E request \in requests:
  LET now == clock["server"] IN
  /\ granted.client = request.client \/ granted.until <= now
  /\ granted' = [granted EXCEPT !.client = request.client, !.until = now + Term]
  /\ requests' = requests \ {request}
  /\ answers' = answers \cup {request}
  /\ UNCHANGED <<clock, until>>

Take == \E answer \in answers:
  LET end == answer.sent + Term IN
  /\ until' = [until EXCEPT ![answer.client] = IF end > @ THEN end ELSE @]
  /\ answers' = answers \ {answer}
  /\ UNCHANGED <<clock, granted, requests>>

Next == Tick \/ Grant \/ Take \/ \E client \in Clients: Ask(client)

Inv == /\ \A client, other \in Clients: Holds(client) /\ Holds(other) => client = other
       /\ \A client \in Clients: Holds(client) => client = granted.client
====
>root CacheCoherence 1 4
---- MODULE CacheCoherence ----
(* Caches of one word of memory on a bus, by the protocol MSI: a line is Modified, Shared or
   Invalid (J. Hennessy and D. Patterson, Computer architecture: a quantitative approach, the
   chapter on multiprocessors). A transaction on the bus is one step, and all caches hear it.
   Inv: a line that may be written is the only one that is valid, every valid line has the value
   that was written last, and where no line is modified memory has it too. It holds. *)
VARIABLES
  \* The line in each cache.
  \* @type: CACHE -> {state: Str, value: Int};
  line,
  \* @type: Int;
  memory,
  \* The value that was written last. No cache reads it.
  \* @type: Int;
  latest

Caches == {"a_OF_CACHE", "b_OF_CACHE", "c_OF_CACHE"}
Values == {0, 1, 2}
Line(state, value) == [state |-> state, value |-> value]
Modified == {cache \in Caches : line[cache].state = "Modified"}

Init == /\ memory \in Values
        /\ latest = memory
        /\ line = [cache \in Caches |-> Line("Invalid", 0)]

\* A miss is served by memory, or by the cache whose line is modified, which memory then has too.
Read(cache) ==
  /\ line[cache].state = "Invalid"
  /\ IF Modified = {}
     THEN /\ line' = [line EXCEPT ![cache] = Line("Shared", memory)]
          /\ UNCHANGED memory
     ELSE \E owner \in Modified:
          /\ memory' = line[owner].value
          /\ line' = [line EXCEPT ![owner].state = "Shared",
                                  ![cache] = Line("Shared", line[owner].value)]
  /\ UNCHANGED latest

Write(cache, value) ==
  /\ line' = [other \in Caches |->
       IF other = cache THEN Line("Modified", value)
                        ELSE [line[other] EXCEPT !.state = "Invalid"]]
  /\ latest' = value
  /\ UNCHANGED memory

Evict(cache) ==
  /\ line[cache].state # "Invalid"
  /\ memory' = IF cache \in Modified THEN line[cache].value ELSE memory
  /\ line' = [line EXCEPT ![cache].state = "Invalid"]
  /\ UNCHANGED latest

Next == \E cache \in Caches:
  \/ Read(cache)
  \/ \E value \in Values: Write(cache, value)
  \/ Evict(cache)

Inv == /\ \A owner \in Modified: \A cache \in Caches \ {owner}: line[cache].state = "Invalid"
       /\ \A cache \in Caches: line[cache].state # "Invalid" => line[cache].value = latest
       /\ Modified = {} => memory = latest
====
>root Termination 1 4
---- MODULE Termination ----
(* Who finds out that a computation on a ring of machines has ended: E. W. Dijkstra, W. H. J.
   Feijen and A. J. M. van Gasteren, Derivation of a termination detection algorithm for
   distributed computations, Information Processing Letters 16(5), 1983 (EWD840). A token runs
   from machine N - 1 down to 0. A machine that sends work upwards turns black, and blackens the
   token that it passes on.
   Inv: where machine 0 sees the end no machine is active, and Dijkstra's invariant. It holds. *)
EXTENDS Integers
VARIABLES
  \* Which machines work.
  \* @type: Int -> Bool;
  active,
  \* @type: Int -> Str;
  color,
  \* Where the token is, and its color.
  \* @type: <<Int, Str>>;
  token

N == 4
Machines == 0..(N - 1)
Colors == {"white", "black"}

Init == /\ active \in [Machines -> BOOLEAN]
        /\ color \in [Machines -> Colors]
        /\ token \in Machines \X {"black"}

\* Machine 0 begins a new round where the last one did not show the end.
Begin ==
  /\ token[1] = 0
  /\ token[2] = "black" \/ color[0] = "black"
  /\ token' = <<N - 1, "white">>
  /\ color' = [color EXCEPT ![0] = "white"]
  /\ UNCHANGED active

Pass(m) ==
  /\ token[1] = m
  /\ ~active[m] \/ color[m] = "black" \/ token[2] = "black"
  /\ token' = <<m - 1, IF color[m] = "black" THEN "black" ELSE token[2]>>
  /\ color' = [color EXCEPT ![m] = "white"]
  /\ UNCHANGED active

Send(m, to) ==
  /\ active[m]
  /\ active' = [active EXCEPT ![to] = TRUE]
  /\ color' = [color EXCEPT ![m] = IF to > m THEN "black" ELSE @]
  /\ UNCHANGED token

Stop(m) ==
  /\ active[m]
  /\ active' = [active EXCEPT ![m] = FALSE]
  /\ UNCHANGED <<color, token>>

Next == \/ Begin
        \/ \E m \in Machines \ {0}: Pass(m)
        \/ \E m \in Machines: Stop(m) \/ \E to \in Machines \ {m}: Send(m, to)

IsEndSeen == token = <<0, "white">> /\ color[0] = "white" /\ ~active[0]

Dijkstra == \/ \A m \in Machines: m > token[1] => ~active[m]
            \/ \E m \in 0..token[1]: color[m] = "black"
            \/ token[2] = "black"

Inv == (IsEndSeen => \A m \in Machines: ~active[m]) /\ Dijkstra
====
>root Transfer 1 3
---- MODULE Transfer ----
(* Two wires take money from one account to another: the first example of H. Wayne, Practical
   TLA+, 2018. A wire looks whether there is enough, withdraws, and deposits, each in a step of
   its own.
   Inv: no account is overdrawn, and the sum of the accounts and of the money that is under way
   is what it was at first (the accounts alone are short between the two steps, so their sum is
   no invariant). It breaks at level 4: both wires look, and then both withdraw. With
   --next=SafeNext, where a wire looks and withdraws in one step, it holds. *)
EXTENDS Integers, TLC, Apalache
VARIABLES
  \* @type: Str -> Int;
  balance,
  \* What each wire takes.
  \* @type: Int -> Int;
  amount,
  \* What each wire does next.
  \* @type: Int -> Str;
  pc

Wires == <<1, 2>>
Accounts == <<"alice", "bob">>

Init == /\ balance = "alice" :> 5 @@ "bob" :> 5
        /\ amount \in [1..2 -> 1..5]
        /\ pc = [wire \in 1..2 |-> "check"]

Move(account, difference) == balance' := [balance EXCEPT ![account] = @ + difference]
Go(wire, from, to) == pc[wire] = from /\ pc' := [pc EXCEPT ![wire] = to]
IsCovered(wire) == amount[wire] <= balance["alice"]

Check(wire) ==
  /\ Go(wire, "check", IF IsCovered(wire) THEN "withdraw" ELSE "done")
  /\ UNCHANGED <<balance, amount>>

Withdraw(wire) ==
  /\ Go(wire, "withdraw", "deposit")
  /\ Move("alice", -amount[wire])
  /\ UNCHANGED amount

CheckAndWithdraw(wire) ==
  /\ IsCovered(wire)
  /\ Go(wire, "check", "deposit")
  /\ Move("alice", -amount[wire])
  /\ UNCHANGED amount

Deposit(wire) ==
  /\ Go(wire, "deposit", "done")
  /\ Move("bob", amount[wire])
  /\ UNCHANGED amount

Next == \E wire \in 1..2: Check(wire) \/ Withdraw(wire) \/ Deposit(wire)
SafeNext == \E wire \in 1..2: CheckAndWithdraw(wire) \/ Deposit(wire)

UnderWay(wire) == IF pc[wire] = "deposit" THEN amount[wire] ELSE 0
Total == ApaFoldSeqLeft(LAMBDA sum, account: sum + balance[account], 0, Accounts)
       + ApaFoldSeqLeft(LAMBDA sum, wire: sum + UnderWay(wire), 0, Wires)

Inv == Total = 10 /\ \A account \in DOMAIN balance: balance[account] >= 0
====
"#;
