//! The laws of the machine: what a reader may rely on, and what a proof of the code may cite. Each law is the contract of
//! a public function that does nothing, and speaks of the definitions of the crate `machine` alone.
#![tactic(auto)]

pub mod dialogue_examples;
pub mod examples;
pub mod journal_examples;
pub mod state_examples;
pub mod update_examples;

ghost use Rattle.std.specs.Prelude.{◌≡◌, ◌≢◌, ℕ, ℤ, Option, None, Some, is_some, ◌<◌, ◌≤◌, List, [], ◌∷◌, ◌++◌, ◌&&◌, ◌||◌, ◌⊎◌, true, false, length};
ghost use Rattle.machine.specs.Received.{Abort, Begin, Component, ComponentOf, Continue, End, Purge, Read, Register, Response};
ghost use Rattle.machine.specs.Isolation.{AgreeOf, MetFullShard, NoneTurnedAway, SameAfter, SameOf, is_of, is_turned_away, only_of, own};
ghost use Rattle.machine.specs.Step.{Answer, HasNoRoom, IsNewId, Step, TurnedAway, outcome_in, known_in};
ghost use Rattle.machine.specs.Bounds.{AnswerInBounds, AreDigits, ComponentsInBounds, EventInBounds, RecordInBounds, StartsOfOperation, StateInBounds};
ghost use Rattle.machine.specs.Opening.{AreLoaded, opening};
ghost use Rattle.machine.specs.Effect.{AreRising, Offer, any_failed, effect, in_sent, invocations_after, open_at, reject_of, rejects_after, starts};
ghost use Rattle.machine.specs.Chains.{Chain, Epoch, first_base, joined};
ghost use Rattle.machine.specs.Tables.{BeginMoves, CloseMoves, ContinueMoves, ExpiryMoves, OpeningMoves};
ghost use Rattle.machine.specs.Sent.{Context};
ghost use Rattle.machine.specs.State.{Dialogue, Invocation, IsFull, State, Subscriber, Updates};
ghost use Rattle.machine.specs.Legal.{Entry, Legal, answers_of, events_of};
ghost use Rattle.machine.specs.Events.{Event, Expire, Frame};
ghost use Rattle.machine.specs.Keys.{Every, IsIn, put_at, shard_of_id};
ghost use Rattle.machine.specs.Invocations.{Happening};
ghost use Rattle.machine.specs.Turns.{IsDue, IsLeast, Turn, TurnsTo, invocation_of};
ghost use Rattle.machine.specs.Holders.{IsNamed, began_from, began_in, holders, is_subject, serving};
ghost use Rattle.machine.specs.Parts.{Leaves, part, union};
ghost use Rattle.machine.specs.Merges.{Merges};
ghost use Rattle.machine.specs.Rows.{MovesByRow, happening, standing_of};
ghost use Rattle.machine.specs.Run.{Run};
ghost use Rattle.machine.specs.Sound.{Sound};
ghost use Rattle.machine.specs.declared.numbers.TheConstants.{MAX_DIALOGUES, SHARDS};
ghost use Rattle.machine.specs.Begins.{first_argument, offer_in};
ghost use Rattle.machine_laws.specs.FirstTimer.{HasFirstTimer};
ghost use Rattle.machine_laws.specs.Numbers.{msisdn_in};
ghost use Rattle.machine_laws.specs.Play.{play};
ghost use Rattle.machine.specs.Routing.{route};

// Sound states

/// A step takes a sound state to a sound state.
pub fn steps_keep_sound()
    ensures { (S : State) (e : Event) (T : State) (a : Answer) → Sound S → Step S e T a → Sound T }
{}

/// The state with the loaded records, no dialogue and clocks at 0 is sound, and each shard begins with its part of it and an
/// empty journal.
pub fn openings_are_sound()
    ensures whole { (records : List ℕ → Option Subscriber) (directory : List ℕ → Option (List ℕ))
        (hlr : List ℕ)
        → AreLoaded records → Sound (opening records directory hlr) }
    ensures of_shard { (records : List ℕ → Option Subscriber) (directory : List ℕ → Option (List ℕ))
        (hlr : List ℕ) (n : ℕ)
        → AreLoaded records → n < SHARDS
        → Legal n (part (opening records directory hlr) n) []
        (part (opening records directory hlr) n) }
{}

/// A state with no dialogue is sound if each record is one that may be loaded.
pub fn fresh_states_are_sound()
    ensures { (S : State) → ((i : List ℕ) → S.dialogues i ≡ None) → AreLoaded S.records → Sound S }
{}

/// A shard is not full if a table of fewer than 4,096 ids has all of its open ids.
pub fn tables_tell_full_shards()
    ensures { (S : State) (n : ℕ) (table : List (List ℕ))
        → ((i : List ℕ) → shard_of_id i ≡ n → (S.dialogues i ≡ None → ⊥) → IsIn i table)
        → length table < MAX_DIALOGUES → IsFull S n → ⊥ }
{}

// One step

/// No event changes who is a subscriber, or a subscriber's MSISDN.
pub fn numbers_stay()
    ensures { (S : State) (e : Event) (T : State) (a : Answer) (imsi : List ℕ)
        → Step S e T a → msisdn_in T imsi ≡ msisdn_in S imsi }
{}

/// No event changes an open dialogue that it does not name.
pub fn unnamed_dialogues_stay()
    ensures { (S : State) (e : Event) (T : State) (a : Answer) (i : List ℕ) (d : Dialogue)
        → Step S e T a → S.dialogues i ≡ Some d → (IsNamed S e i → ⊥) → T.dialogues i ≡ Some d }
{}

/// A dialogue that a step opens has the id that the step took, and that id named no open dialogue and is one of the
/// event's shard.
pub fn opened_dialogues_are_new()
    ensures opened { (S : State) (e : Event) (T : State) (a : Answer) (i : List ℕ) (d : Dialogue)
        → Step S e T a → S.dialogues i ≡ None → T.dialogues i ≡ Some d → a.id ≡ Some i }
    ensures taken { (S : State) (e : Event) (T : State) (a : Answer) (i : List ℕ)
        → Step S e T a → a.id ≡ Some i → IsNewId S (route S.directory e) i }
{}

/// In a sound state the subscriber of an open dialogue, who is the subject of its steps, has a record.
pub fn dialogues_have_subjects()
    ensures { (S : State) (i : List ℕ) (d : Dialogue)
        → Sound S → S.dialogues i ≡ Some d → known_in S (Some d.subscriber) ≡ Some d.subscriber }
{}

/// In a sound state each event has a step, except an operator's change that would overflow its shard.
pub fn events_have_steps()
    ensures { (S : State) (e : Event) → Sound S
        → ((T : State) × (a : Answer) × Step S e T a) ⊎ HasNoRoom S e }
{}

/// The id that is taken is a step's only free choice.
pub fn ids_are_the_only_choice()
    ensures { (S : State) (e : Event) (T U : State) (a b : Answer)
        → Step S e T a → Step S e U b → a.id ≡ b.id → (T ≡ U) × (a ≡ b) }
{}

/// Whether an id is taken, and which open dialogue closes, is no choice.
pub fn ids_choose_nothing_else()
    ensures taken { (S : State) (e : Event) (T U : State) (a b : Answer)
        → Step S e T a → Step S e U b → is_some a.id ≡ is_some b.id }
    ensures closed { (S : State) (e : Event) (T U : State) (a b : Answer)
        → Step S e T a → Step S e U b → (id : List ℕ) → S.dialogues id ≢ None
        → T.dialogues id ≡ None → U.dialogues id ≡ None }
{}

/// What the worked examples compute is a step, if there is room and the new id is a new one.
pub fn played_turns_are_steps()
    ensures { (S : State) (e : Event) (turn : Turn) (new : List ℕ)
        → TurnsTo S e turn → IsNewId S (route S.directory e) new
        → (IsFull S (route S.directory e) → ⊥)
        → Step S e (play S (route S.directory e) turn new).state
        (play S (route S.directory e) turn new).answer }
{}

/// An operator's change that would overflow its shard has no step.
pub fn changes_without_room_have_no_step()
    ensures { (S : State) (e : Event) (T : State) (a : Answer) → HasNoRoom S e → Step S e T a → ⊥ }
{}

/// An answer with a subject says that an update was turned away exactly if an update of this subject met a full shard; then
/// nothing changed.
pub fn turned_away_is_exact()
    ensures told { (S : State) (e : Event) (T : State) (a : Answer) (x : List ℕ)
        → Step S e T a → is_subject x a.subject && is_turned_away a.sent ≡ true
        → MetFullShard S e T a x }
    ensures tells { (S : State) (e : Event) (turn : Turn) (new : List ℕ) (T : State) (a : Answer)
        → TurnsTo S e turn → TurnedAway S (route S.directory e) turn
        (outcome_in S (route S.directory e) turn new) T a
        → (x : List ℕ) × MetFullShard S e T a x × (is_turned_away a.sent ≡ true) }
{}

/// A purge that names no register, or another than the serving one, changes nothing: no record, no dialogue, no clock (TS 23.012,
/// Purge MS).
pub fn foreign_purges_change_nothing()
    ensures { (S : State) (from origin : List ℕ) (name : Option (List ℕ))
        (components : List Component) (imsi : List ℕ)
        (vlr : Option (List ℕ)) (T : State) (a : Answer)
        → Step S (Frame from (Read (Begin origin name components))) T a
        → first_argument components ≡ Some (Purge imsi vlr)
        → ((v : List ℕ) → vlr ≡ Some v → serving (S.records imsi) v ≡ false)
        → (T ≡ S) × (a.id ≡ None) }
{}

// The tables

/// Every transaction and every invocation that a step changes moves by a row of its table (Q.774), and what is sent for it is
/// what the row says, with the Rejects of what was received. A Begin is answered to its source, and a dialogue that opens invokes
/// each operation under the id of its invocation. The dialogues that an event does not name stay, by `unnamed_dialogues_stay`.
pub fn steps_follow_the_tables()
    // a Begin, whether it opens a dialogue or not
    ensures begins { (S : State) (from origin : List ℕ) (name : Option (List ℕ))
        (components : List Component) (T : State) (a : Answer)
        → Step S (Frame from (Read (Begin origin name components))) T a
        → BeginMoves from origin name components a }
    // a Continue, whether it is for a dialogue or for none
    ensures continues { (S : State) (from origin i : List ℕ) (portion : Option Response)
        (components : List Component) (T : State) (a : Answer)
        → Step S (Frame from (Read (Continue origin i portion components))) T a
        → ContinueMoves S from origin i components T a }
    // an End and an Abort
    ensures ends { (S : State) (from i : List ℕ) (portion : Option Response)
        (components : List Component) (T : State) (a : Answer)
        → Step S (Frame from (Read (End i portion components))) T a → CloseMoves S i T a }
    ensures aborts { (S : State) (from i : List ℕ) (T : State) (a : Answer)
        → Step S (Frame from (Read (Abort i))) T a → CloseMoves S i T a }
    // the expiry of the least timer that is due
    ensures expires { (S : State) (n : ℕ) (i : List ℕ) (d : Dialogue) (j : ℤ) (v : Invocation)
        (T : State) (a : Answer)
        → Sound S → IsDue S n i d j v → IsLeast S n v.deadline i j → Step S (Expire n) T a
        → ExpiryMoves S n i d j T a }
    // a dialogue that opens
    ensures opens { (S : State) (e : Event) (T : State) (a : Answer) (i : List ℕ)
        → Step S e T a → a.id ≡ Some i → OpeningMoves S e (route S.directory e) i T a }
{}

/// An expiry names at most one dialogue: an open one with a due timer, and no due timer has an earlier deadline.
pub fn expiries_name_one()
    ensures one { (S : State) (n : ℕ) (i k : List ℕ) → IsNamed S (Expire n) i
        → IsNamed S (Expire n) k → i ≡ k }
    ensures which { (S : State) (n : ℕ) (i k : List ℕ) (d : Dialogue) (j : ℤ) (v : Invocation)
        → IsNamed S (Expire n) i → IsDue S n k d j v → HasFirstTimer S n i v.deadline }
{}

/// A timer is due once the clock has reached its deadline.
pub fn timers_are_due_at_their_deadline()
    ensures { (S : State) (n : ℕ) (i : List ℕ) (d : Dialogue) (j : ℤ) (v : Invocation)
        → shard_of_id i ≡ n → S.dialogues i ≡ Some d → invocation_of j d.invocations ≡ Some v
        → v.deadline ≡ S.clocks n
        → IsDue S n i d j v }
{}

/// A component moves the invocation with its id by a row of the invocation table, and is rejected as the row says; it moves
/// no other.
pub fn components_follow_the_table<P>()
    ensures concerned { (now : ℕ) (offer : Offer) (vs : List Invocation) (c : ComponentOf P) (j : ℤ)
        (x : Happening)
        → AreRising vs → happening j c ≡ Some x → MovesByRow now offer vs c j x }
    ensures others { (now : ℕ) (vs : List Invocation) (c : ComponentOf P) (j : ℤ)
        → happening j c ≡ None → standing_of j (invocations_after now (c ∷ []) vs)
        ≡ standing_of j vs }
{}

/// The effect of a list of components is that of its components one by one, each on the invocations that the earlier ones
/// leave.
pub fn components_come_one_by_one<P>()
    ensures rejects { (offer : Offer) (vs : List Invocation) (cs : List (ComponentOf P))
        (c : ComponentOf P)
        → rejects_after offer vs [] (cs ++ c ∷ [])
        ≡ rejects_after offer vs [] cs ++ reject_of offer vs cs c }
    ensures invocations { (now : ℕ) (cs : List (ComponentOf P)) (c : ComponentOf P)
        (vs : List Invocation)
        → invocations_after now (cs ++ c ∷ []) vs
        ≡ invocations_after now (c ∷ []) (invocations_after now cs vs) }
    ensures failed { (now : ℕ) (cs : List (ComponentOf P)) (c : ComponentOf P)
        (vs : List Invocation)
        → any_failed (cs ++ c ∷ []) vs ≡ any_failed cs vs || any_failed (c ∷ [])
        (invocations_after now cs vs) }
    ensures starts { (offer : Offer) (vs : List Invocation) (c : ComponentOf P)
        (cs : List (ComponentOf P))
        → starts offer vs (c ∷ cs) ≡ starts offer vs (c ∷ []) }
    ensures open { (now : ℕ) (vs : List Invocation) (cs : List (ComponentOf P)) (j : ℤ)
        → AreRising vs → open_at vs cs j ≡ in_sent j (invocations_after now cs vs) }
    ensures rising { (now : ℕ) (cs : List (ComponentOf P)) (vs : List Invocation)
        → AreRising vs → AreRising (invocations_after now cs vs) }
{}

// Bounds

/// If the values of a state and of an event are within their bounds, so are those of the state after a step and of its answer,
/// and along every run. The loaded state is within bounds, a part is if the whole is, and the whole is if the parts are.
pub fn steps_stay_in_bounds()
    ensures step { (S : State) (e : Event) (T : State) (a : Answer)
        → StateInBounds S → EventInBounds e → Step S e T a → StateInBounds T × AnswerInBounds a }
    ensures run { (S : State) (events : List Event) (T : State) (answers : List Answer)
        → StateInBounds S → Every EventInBounds events → Run S events T answers
        → StateInBounds T × Every AnswerInBounds answers }
    ensures opening_state { (records : List ℕ → Option Subscriber)
        (directory : List ℕ → Option (List ℕ)) (hlr : List ℕ)
        → ((x : List ℕ) (s : Subscriber) → records x ≡ Some s → AreDigits x × RecordInBounds s)
        → AreDigits hlr
        → StateInBounds (opening records directory hlr) }
    ensures parts { (S : State) (n : ℕ) → StateInBounds S → StateInBounds (part S n) }
    ensures unions { (states : ℕ → State) → ((n : ℕ) → n < SHARDS → StateInBounds (states n))
        → StateInBounds (union states) }
{}

/// What a Begin starts in a context has an argument, and it is one of the operation that a peer may invoke there.
pub fn what_starts_is_of_its_context()
    ensures { (now : ℕ) (context : Context) (vs : List Invocation) (components : List Component)
        (invoke : ℤ)
        → ComponentsInBounds components
        → (effect now (offer_in context components) vs components).started ≡ Some invoke
        → StartsOfOperation context components }
{}

// Who holds a subscriber

/// Along every run from a sound state, the register of an open update dialogue has the VLR digits with which its id began.
pub fn updates_have_their_digits()
    ensures { (base S : State) (entries : List Entry) (i : List ℕ) (d : Dialogue)
        (register : Register) (invoke : ℤ)
        → Sound base → Run base (events_of entries) S (answers_of entries)
        → S.dialogues i ≡ Some d → d.kind ≡ Updates register invoke
        → began_from (began_in base) entries i ≡ Some register.vlr }
{}

/// Along every run from a sound state, exactly the serving register holds each subscriber.
pub fn holders_are_registers()
    ensures { (base S : State) (entries : List Entry) (x : List ℕ)
        → Sound base → Run base (events_of entries) S (answers_of entries)
        → holders base entries x ≡ serving (S.records x) }
{}

// Shards

/// A step of a shard reads and changes the part of that shard alone.
pub fn steps_stay_in_their_part()
    ensures within { (S : State) (e : Event) (T : State) (a : Answer) → Sound S → Step S e T a
        → Step (part S (route S.directory e)) e (part T (route S.directory e)) a
        × Leaves S T (route S.directory e) }
    ensures of_whole { (S P : State) (e : Event) (a : Answer) (n : ℕ)
        → Sound S → route S.directory e ≡ n → Step (part S n) e P a
        → (T : State) × Step S e T a × (part T n ≡ P) × Leaves S T n }
{}

/// The union of parts is one whole state: of the parts of a sound state it is that state, and of sixteen sound states of
/// shards, under one directory and one number of the register, each is its part.
pub fn unions_have_parts()
    ensures whole { (S : State) → Sound S → ((n : ℕ) → SHARDS ≤ n → S.clocks n ≡ 0)
        → union (part S) ≡ S }
    ensures parts { (states : ℕ → State) (n : ℕ)
        → ((m : ℕ) → m < SHARDS → Sound (states m))
        → ((m : ℕ) → m < SHARDS → (states m).directory ≡ (states 0).directory)
        → ((m : ℕ) → m < SHARDS → (states m).hlr ≡ (states 0).hlr)
        → n < SHARDS → states n ≡ part (states n) n → part (union states) n ≡ states n }
    ensures sound { (states : ℕ → State)
        → ((m : ℕ) → m < SHARDS → Sound (states m))
        → ((m : ℕ) → m < SHARDS → (states m).directory ≡ (states 0).directory)
        → ((m : ℕ) → m < SHARDS → (states m).hlr ≡ (states 0).hlr)
        → Sound (union states) }
{}

/// A step of one shard is a step of the union of the sixteen.
pub fn steps_are_steps_of_the_union()
    ensures { (states : ℕ → State) (n : ℕ) (T : State) (e : Event) (a : Answer)
        → ((m : ℕ) → m < SHARDS → Sound (states m))
        → ((m : ℕ) → m < SHARDS → (states m).directory ≡ (states 0).directory)
        → ((m : ℕ) → m < SHARDS → (states m).hlr ≡ (states 0).hlr)
        → n < SHARDS → route (states n).directory e ≡ n → Step (states n) e T a
        → Step (union states) e (union (put_at states n T)) a }
{}

/// Every merge of sixteen legal journals is a run from the union of the bases to the union of the states.
pub fn merges_are_runs()
    ensures { (bases states : ℕ → State) (journals : ℕ → List Entry) (merge : List Entry)
        → ((n : ℕ) → n < SHARDS → Legal n (bases n) (journals n) (states n))
        → ((n : ℕ) → n < SHARDS → (bases n).directory ≡ (bases 0).directory)
        → ((n : ℕ) → n < SHARDS → (bases n).hlr ≡ (bases 0).hlr)
        → Merges journals merge
        → Run (union bases) (events_of merge) (union states) (answers_of merge) }
{}

// Journals

/// A journal begins empty, and a step of its shard appends its entry.
pub fn journals_grow_by_steps()
    ensures empty { (n : ℕ) (S : State) → n < SHARDS → Sound S → S ≡ part S n → Legal n S [] S }
    ensures push { (n : ℕ) (base S T : State) (journal : List Entry) (e : Event) (a : Answer)
        → Legal n base journal S → route S.directory e ≡ n → Step S e T a
        → Legal n base (journal ++ record { event = e; answer = a } ∷ []) T }
{}

/// A cut appends its epoch to the chain. The joined journal of a chain and its shard is legal from the first base, and has the
/// holders and the isolation of one journal. A step leaves the shard's base unchanged, and with it the chain.
pub fn chains_are_journals()
    ensures cut { (n : ℕ) (epochs : List Epoch) (base state : State) (entries : List Entry)
        → Chain n epochs base → Legal n base entries state
        → Chain n (epochs ++ record { base = base; entries = entries } ∷ []) state }
    ensures whole { (n : ℕ) (epochs : List Epoch) (base state : State) (entries : List Entry)
        → Chain n epochs base → Legal n base entries state
        → Legal n (first_base epochs base) (joined epochs ++ entries) state }
    ensures holders_of { (n : ℕ) (epochs : List Epoch) (base state : State) (entries : List Entry)
        (x : List ℕ)
        → Chain n epochs base → Legal n base entries state
        → holders (first_base epochs base) (joined epochs ++ entries) x
        ≡ serving (state.records x) }
    ensures isolation { (n : ℕ) (epochs : List Epoch) (base state : State) (entries : List Entry)
        (x : List ℕ)
        → Chain n epochs base → Legal n base entries state
        → NoneTurnedAway (joined epochs ++ entries) x
        → (T : State) × Legal n (own (first_base epochs base) x)
        (only_of (joined epochs ++ entries) x) T × SameOf x state T }
{}

// One subscriber alone

/// An entry that is neither of x nor of the clock leaves the record of x, the dialogues of x and the clocks unchanged.
pub fn others_leave_a_subscriber()
    ensures { (x : List ℕ) (S : State) (e : Event) (T : State) (a : Answer)
        → Sound S → Step S e T a → is_of x (record { event = e; answer = a }) ≡ false
        → SameAfter x S T }
{}

/// An entry of x or of the clock, unless it is an update that was turned away, is a step with the same answer in any sound
/// state that has the same record and dialogues of x and no dialogue of another subscriber.
pub fn a_subscriber_sees_its_own()
    ensures { (x : List ℕ) (S T : State) (e : Event) (U : State) (a : Answer)
        → Sound S → Sound T → AgreeOf x S T → Step S e U a
        → is_of x (record { event = e; answer = a }) ≡ true
        → is_subject x a.subject && is_turned_away a.sent ≡ false
        → (V : State) × Step T e V a × Sound V × AgreeOf x U V }
{}

/// Isolation: the entries of x are a legal journal from the state with x alone to a state with the same record and the same
/// dialogues of x.
pub fn own_entries_are_legal()
    ensures { (n : ℕ) (base S : State) (journal : List Entry) (x : List ℕ)
        → Legal n base journal S → NoneTurnedAway journal x
        → (T : State) × Legal n (own base x) (only_of journal x) T × SameOf x S T }
{}
