//! Worked examples of dialogues: what the definitions say of single components, of contexts and ids, of timers and of shards,
//! computed. The subscribers and the registers are those of `specs/Worked.antt`; the id for a dialogue that opens is given.

ghost use Rattle.std.specs.Prelude.{◌≡◌, ◌^◌, ℕ, ℤ, pos, negsuc, List, Option, Some, None, [], ◌∷◌, true, false};
ghost use Rattle.std.specs.Ordering.{is_gt};
ghost use Rattle.machine.specs.Received.{Abort, Bad, Begin, Component, Continue, Discard, End, General, Ignored, Invoke, Number, OfError, OfInvoke, OfResult, Read, Refuse, Reject, ResultNotLast, ReturnError, Side, Typed, Update};
ghost use Rattle.machine.specs.Sent.{Cancel, Cause, Insert, LocationCancellation, MsPurging, NetworkLocUp, NoCause, Refusing, Rejection, RouteResult, SentAbort, SentBegin, SentContinue, SentEnd, SentError, ShortMsgGateway, UpdateProcedure, UpdateResult, Why};
ghost use Rattle.machine.specs.Holders.{IsNamed};
ghost use Rattle.machine.specs.State.{Dialogue, Invocation, IsIdOf, OperationSent, State, Transaction, Updates, WaitForReject};
ghost use Rattle.machine.specs.Events.{Codes, Expire, Frame, Withdraw};
ghost use Rattle.machine.specs.Turns.{Dismissed, IsDue, TurnsTo, triple_cmp, turn_of_verdict};
ghost use Rattle.machine.specs.declared.numbers.TheConstants.{MAX_DIALOGUES, MAX_ENTRIES, SHARDS};
ghost use Rattle.machine.specs.Contexts.{name_of};
ghost use Rattle.machine.specs.Transactions.{CloseComes, ContinueComes, ForIt, IsSent, Nothing, OwnClose, OwnEnd, Unassigned, row, transact};
ghost use Rattle.machine.specs.Effect.{rejection};
ghost use Rattle.machine.specs.Routing.{route};
ghost use Rattle.machine_laws.specs.Worked.{at_a, at_b, begin_in, continue_to, directory, fifth_imsi, first_imsi, first_msisdn, first_record, gateway, hlr, id_a, id_b, id_c, id_d, id_e, one, result_of, route_of, second_imsi, second_record, start, theirs, update_of, vlr_a, vlr_b};
ghost use Rattle.machine_laws.specs.Play.{expires_at, expiry_at, is_changed, receives, waits};

// Components (Q.774, component sublayer)

/// In an open update a late result is rejected, whether last or not; so are an Invoke with the id that the peer waits for, one
/// with a linked id, one of the peer's own operation, and any ill-formed component except a Reject.
pub fn late_and_linked_components()
    ensures { let begun = receives start vlr_b
        (begin_in NetworkLocUp (update_of second_imsi at_b ∷ [])) id_d in
        let half = receives begun.state vlr_b (continue_to id_d (result_of (pos 1) ∷ [])) id_a in
        let gets = λ (component : Component).
        (receives half.state vlr_b (continue_to id_d (component ∷ [])) id_a).answer.sent in
        let rejects = λ (rejected : Rejection). one vlr_b
        (SentContinue id_d theirs None (rejected ∷ []) []) in
        (half.answer.sent ≡ [])
        × (gets (result_of (pos 1)) ≡ rejects (rejection (Some (pos 1)) OfResult 0))
        × (gets (ResultNotLast (pos 1)) ≡ rejects (rejection (Some (pos 1)) OfResult 0))
        × (gets (ReturnError (pos 7) (Number 34)) ≡ rejects (rejection (Some (pos 7)) OfError 0))
        × (gets (update_of second_imsi at_b) ≡ rejects (rejection (Some (pos 1)) OfInvoke 0))
        × (gets (Invoke (pos 5) (Some (pos 9)) (Number 2) None)
        ≡ rejects (rejection (Some (pos 5)) OfInvoke 5))
        × (gets (Invoke (pos 5) (Some (pos 2)) (Number 2) None)
        ≡ rejects (rejection (Some (pos 5)) OfInvoke 6))
        × (gets (Invoke (pos 5) None (Number 2) None)
        ≡ rejects (rejection (Some (pos 5)) OfInvoke 3))
        × (gets (Invoke (pos 5) None (Number 3) None)
        ≡ rejects (rejection (Some (pos 5)) OfInvoke 1))
        × (gets (Bad None 0) ≡ rejects (rejection None General 0))
        × (gets (Bad (Some (pos 3)) 1) ≡ rejects (rejection (Some (pos 3)) General 1))
        × (gets Ignored ≡ [])
        × (gets (Reject (Some (pos 1)) General 0) ≡ []) }
{}

/// The order of the checks of an Invoke: its id, then what it is linked to at its place in the list, then its operation. Once
/// the first Invoke of a Begin is accepted, its id is in use, for the third component as for the second.
pub fn checks_of_an_invoke()
    ensures { let begun = receives start vlr_b
        (begin_in NetworkLocUp (update_of second_imsi at_b ∷ [])) id_d in
        let gets = λ (components : List Component).
        (receives begun.state vlr_b (continue_to id_d components) id_a).answer.sent in
        let rejects = λ (invoke : ℤ) (problem : ℕ). one vlr_b
        (SentContinue id_d theirs None (rejection (Some invoke) OfInvoke problem ∷ []) []) in
        (gets (Invoke (pos 1) (Some (pos 9)) (Number 2) None ∷ []) ≡ rejects (pos 1) 0)
        × (gets (Invoke (pos 5) (Some (pos 9)) (Number 3) None ∷ []) ≡ rejects (pos 5) 5)
        × (gets (Invoke (pos 5) (Some (pos 1)) (Number 3) None ∷ []) ≡ rejects (pos 5) 6)
        × (gets (result_of (pos 1) ∷ Invoke (pos 5) (Some (pos 1)) (Number 2) None ∷ [])
        ≡ rejects (pos 5) 5)
        × ((receives start gateway (begin_in ShortMsgGateway
        (route_of first_msisdn ∷ route_of first_msisdn ∷ [])) id_a).answer.sent
        ≡ one gateway (SentEnd theirs (Some ShortMsgGateway)
        (rejection (Some (pos 1)) OfInvoke 0 ∷ [])
        (RouteResult (pos 1) first_imsi at_a.msc None ∷ [])))
        × ((receives start gateway (begin_in ShortMsgGateway
        (route_of first_msisdn ∷ Bad None 0 ∷ route_of first_msisdn ∷ [])) id_a).answer.sent
        ≡ one gateway (SentEnd theirs (Some ShortMsgGateway)
        (rejection None General 0 ∷ rejection (Some (pos 1)) OfInvoke 0 ∷ [])
        (RouteResult (pos 1) first_imsi at_a.msc None ∷ []))) }
{}

/// In a cancel and in a data dialogue the peer may invoke nothing.
pub fn no_invoke_from_the_peer()
    ensures { let asks = λ (S : State). (receives S vlr_a
        (continue_to id_a (Invoke (pos 5) None (Number 2) None ∷ [])) id_b).answer.sent in
        let rejected = one vlr_a (SentContinue id_a theirs None (rejection (Some (pos 5)) OfInvoke 1 ∷ []) []) in
        (asks (is_changed start first_imsi Withdraw id_a).state ≡ rejected)
        × (asks (is_changed start first_imsi (Codes (0x11 ∷ [])) id_a).state ≡ rejected) }
{}

/// The frame that opens or ends a dialogue carries the Rejects; so does the End of an update that was overtaken.
pub fn rejects_go_along()
    ensures { let begun = receives start vlr_b
        (begin_in NetworkLocUp (update_of first_imsi at_b ∷ Bad None 0 ∷ [])) id_a in
        let done = receives begun.state vlr_b (continue_to id_a (result_of (pos 1) ∷ Bad None 0 ∷ [])) id_b in
        let failed = receives begun.state vlr_b (continue_to id_a (ReturnError (pos 1) (Number 34) ∷ Bad None 0 ∷ [])) id_b in
        let over = receives done.state vlr_a (continue_to id_b (Bad None 0 ∷ result_of (pos 1) ∷ [])) id_c in
        let other = receives begun.state vlr_b (begin_in NetworkLocUp (update_of first_imsi at_b ∷ [])) id_b in
        let overtaken = receives other.state vlr_b (continue_to id_a (result_of (pos 1) ∷ Bad None 0 ∷ [])) id_c in
        let bad = rejection None General 0 ∷ [] in
        (begun.answer.sent ≡ one vlr_b (SentContinue id_a theirs (Some NetworkLocUp) bad
        (Insert (pos 1) None (Some first_msisdn) first_record.codes ∷ [])))
        × (done.answer.sent ≡ record {
          to = vlr_b;
          message = SentEnd theirs None bad
              (UpdateResult (pos 1) hlr ∷ []);
        }
        ∷ record {
          to = vlr_a;
          message = SentBegin id_b LocationCancellation
              (Cancel (pos 1) first_imsi UpdateProcedure ∷ []);
        } ∷ [])
        × (failed.answer.sent ≡ one vlr_b (SentEnd theirs None bad (SentError (pos 1) 34 ∷ [])))
        × (over.answer.sent ≡ one vlr_a (SentEnd theirs None bad []))
        × (overtaken.answer.sent ≡ one vlr_b (SentEnd theirs None bad (SentError (pos 1) 34 ∷ []))) }
{}

/// A Reject of an insert fails the update if its problem is a general or an invoke problem; one of a result or of an error, which
/// the register did not send, does not affect it. Of two answers in one frame the first counts.
pub fn rejects_of_an_insert()
    ensures { let begun = receives start vlr_b
        (begin_in NetworkLocUp (update_of first_imsi at_b ∷ [])) id_a in
        let gets = λ (side : Side). (receives begun.state vlr_b
        (continue_to id_a (Reject (Some (pos 1)) side 0 ∷ [])) id_b).answer.sent in
        let failed = one vlr_b (SentEnd theirs None [] (SentError (pos 1) 34 ∷ [])) in
        (gets General ≡ failed) × (gets OfInvoke ≡ failed) × (gets OfResult ≡ [])
        × (gets OfError ≡ [])
        × ((receives begun.state vlr_b (continue_to id_a
        (ReturnError (pos 1) (Number 34) ∷ result_of (pos 1) ∷ [])) id_b).answer.sent
        ≡ one vlr_b (SentEnd theirs None (rejection (Some (pos 1)) OfResult 0 ∷ [])
        (SentError (pos 1) 34 ∷ []))) }
{}

/// The second of two answers to one Invoke in a frame is rejected.
pub fn result_of_unknown_invoke()
    ensures { let begun = receives start vlr_b
        (begin_in NetworkLocUp (update_of second_imsi at_b ∷ [])) id_d in
        (receives begun.state vlr_b (continue_to id_d (result_of (pos 1) ∷ result_of (pos 1) ∷ [])) id_a).answer.sent
        ≡ one vlr_b (SentContinue id_d theirs None (rejection (Some (pos 1)) OfResult 0 ∷ []) []) }
{}

// Dialogues (Q.774, transaction sublayer)

/// Another version of a context is refused with version 3, any other name with itself, even if it is shorter or longer. A Begin
/// without a dialogue portion, or without a component, is aborted without a cause.
pub fn refused_contexts()
    ensures { let begins = λ (name : Option (List ℕ))
        (components : List Component). (receives start vlr_b
        (Begin theirs name components) id_a).answer.sent in
        let aborted = λ (why : Why). one vlr_b (SentAbort theirs why) in
        let update = update_of first_imsi at_b ∷ [] in
        (begins (Some (4 ∷ 0 ∷ 0 ∷ 1 ∷ 0 ∷ 1 ∷ 2 ∷ [])) update
        ≡ aborted (Refusing (name_of NetworkLocUp)))
        × (begins (Some (4 ∷ 0 ∷ 0 ∷ 1 ∷ 0 ∷ 0x1B ∷ 2 ∷ [])) update
        ≡ aborted (Refusing (name_of MsPurging)))
        × (begins (Some (4 ∷ 0 ∷ 0 ∷ 1 ∷ 0 ∷ 0x14 ∷ 1 ∷ [])) update
        ≡ aborted (Refusing (name_of ShortMsgGateway)))
        × (begins (Some (4 ∷ 0 ∷ 0 ∷ 1 ∷ 0 ∷ 5 ∷ 3 ∷ [])) update
        ≡ aborted (Refusing (4 ∷ 0 ∷ 0 ∷ 1 ∷ 0 ∷ 5 ∷ 3 ∷ [])))
        × (begins (Some (4 ∷ 0 ∷ 0 ∷ 1 ∷ 0 ∷ 2 ∷ 2 ∷ [])) update
        ≡ aborted (Refusing (4 ∷ 0 ∷ 0 ∷ 1 ∷ 0 ∷ 2 ∷ 2 ∷ [])))
        × (begins (Some (4 ∷ 0 ∷ 0 ∷ 1 ∷ 0 ∷ 1 ∷ [])) update
        ≡ aborted (Refusing (4 ∷ 0 ∷ 0 ∷ 1 ∷ 0 ∷ 1 ∷ [])))
        × (begins (Some (4 ∷ 0 ∷ 0 ∷ 1 ∷ 0 ∷ 1 ∷ 3 ∷ 0 ∷ [])) update
        ≡ aborted (Refusing (4 ∷ 0 ∷ 0 ∷ 1 ∷ 0 ∷ 1 ∷ 3 ∷ 0 ∷ [])))
        × (begins (Some (name_of LocationCancellation)) update
        ≡ aborted (Refusing (name_of LocationCancellation)))
        × (begins None update ≡ aborted NoCause)
        × (begins (Some (name_of NetworkLocUp)) [] ≡ aborted NoCause) }
{}

/// A Continue for no open dialogue, with an originating id that is not the peer's, or with a destination id that is no local id,
/// is aborted: unrecognizedTransactionID. Such an End is discarded. A frame that reads to an Abort is answered with it. The open
/// dialogue stays.
pub fn unknown_dialogues()
    ensures { let begun = receives start vlr_b
        (begin_in NetworkLocUp (update_of first_imsi at_b ∷ [])) id_a in
        let aborted = λ (origin : List ℕ) (cause : ℕ). one vlr_b (SentAbort origin (Cause cause)) in
        let result = result_of (pos 1) ∷ [] in
        let short = 0 ∷ 0 ∷ 11 ∷ [] in
        ((receives start vlr_b (continue_to id_a result) id_b).answer.sent ≡ aborted theirs 1)
        × ((receives begun.state vlr_b (Continue short id_a None result) id_b).answer.sent
        ≡ aborted short 1)
        × ((receives begun.state vlr_b (Continue short id_a None result) id_b).state.dialogues id_a
        ≡ begun.state.dialogues id_a)
        × ((receives begun.state vlr_b (Continue theirs
        (0 ∷ 16 ∷ 0 ∷ []) None result) id_b).answer.sent ≡ aborted theirs 1)
        × ((receives start vlr_b (End id_a None result) id_b).answer.sent ≡ [])
        × (turn_of_verdict start.dialogues vlr_b (Refuse theirs 3) ≡ Dismissed (aborted theirs 3))
        × (turn_of_verdict start.dialogues vlr_b Discard ≡ Dismissed []) }
{}

/// What becomes of a transaction: the first Continue sets its peer; a later one with another id is for none, from whatever
/// address, and leaves the transaction unchanged. An End or an Abort closes it. The register ends it without a frame only before the
/// first Continue.
pub fn rows_of_transactions()
    ensures { let initiated : Transaction = record { peer = vlr_a; remote = None } in
        let active : Transaction = record { peer = vlr_a; remote = Some theirs } in
        let short = 0 ∷ 0 ∷ 11 ∷ [] in
        (transact (Some initiated) (ContinueComes gateway theirs)
        ≡ row (Some (record { peer = gateway; remote = Some theirs })) ForIt)
        × (transact (Some active) (ContinueComes gateway theirs) ≡ row (Some active) ForIt)
        × (transact (Some active) (ContinueComes vlr_a short) ≡ row (Some active) Unassigned)
        × (transact None (ContinueComes vlr_a theirs) ≡ row None Unassigned)
        × (transact (Some initiated) CloseComes ≡ row None ForIt)
        × (transact (Some active) CloseComes ≡ row None ForIt)
        × (transact None CloseComes ≡ row None Nothing)
        × (transact (Some initiated) OwnClose ≡ row None Nothing)
        × (transact (Some active) OwnClose ≡ None)
        × (transact (Some initiated) OwnEnd ≡ None)
        × (transact (Some active) OwnEnd ≡ row None IsSent) }
{}

/// A context that is not accepted is refused before the components are checked.
pub fn refused_before_components()
    ensures { let other = 4 ∷ 0 ∷ 0 ∷ 1 ∷ 0 ∷ 5 ∷ 3 ∷ [] in
        (receives start vlr_b (Begin theirs (Some other) []) id_a).answer.sent
        ≡ one vlr_b (SentAbort theirs (Refusing other)) }
{}

// Timers, clocks and shards

/// The register waits 20 ticks for an answer, from the value of the clock at which it asked, and then 5 for a Reject of it; then
/// it forgets this invocation alone, and the update stays the current one. A clock never goes back, and never beyond 2^62.
pub fn timers_and_clocks()
    ensures timers { let begun = receives start vlr_b
        (begin_in NetworkLocUp (update_of second_imsi at_b ∷ [])) id_d in
        (receives (waits begun.state 2 3) vlr_b
        (continue_to id_d (result_of (pos 1) ∷ [])) id_a).state.dialogues id_d ≡ Some (record {
          subscriber = second_imsi;
          transaction = record { peer = vlr_b; remote = Some theirs };
          invocations =
              record { id = pos 1; was = WaitForReject; deadline = 8 }
              ∷ record { id = pos 2; was = OperationSent; deadline = 20 } ∷ [];
          kind = Updates at_b (pos 1);
        }) }
    ensures later { (receives (waits start 1 10) vlr_b
        (begin_in NetworkLocUp (update_of first_imsi at_b ∷ [])) id_a).state.dialogues id_a ≡ Some (record {
          subscriber = first_imsi;
          transaction = record { peer = vlr_b; remote = Some theirs };
          invocations = record { id = pos 1; was = OperationSent; deadline = 30 } ∷ [];
          kind = Updates at_b (pos 1);
        }) }
    ensures forgotten { let begun = receives start vlr_b
        (begin_in NetworkLocUp (update_of second_imsi at_b ∷ [])) id_d in
        let half = receives begun.state vlr_b (continue_to id_d (result_of (pos 2) ∷ [])) id_a in
        (expires_at (waits half.state 2 5) id_d (pos 2) id_a).state.dialogues id_d ≡ Some (record {
          subscriber = second_imsi;
          transaction = record { peer = vlr_b; remote = Some theirs };
          invocations = record { id = pos 1; was = OperationSent; deadline = 20 } ∷ [];
          kind = Updates at_b (pos 1);
        }) }
    ensures marked { let begun = receives start vlr_b
        (begin_in NetworkLocUp (update_of second_imsi at_b ∷ [])) id_d in
        let half = receives begun.state vlr_b (continue_to id_d (result_of (pos 2) ∷ [])) id_a in
        (expires_at (waits half.state 2 5) id_d (pos 2) id_a).state.records second_imsi
        ≡ Some (record second_record { current = Some id_d }) }
    ensures clocks { ((waits (waits start 1 9) 1 4).clocks 1 ≡ 9)
        × ((waits start 1 (2 ^ 63)).clocks 1 ≡ 2 ^ 62) }
{}

/// What is due is ordered by deadline, then by local id, then by invoke id.
pub fn order_of_what_is_due()
    ensures { (is_gt (triple_cmp 20 id_a (pos 2) 20 id_b (pos 1)) ≡ false)
        × (is_gt (triple_cmp 19 id_b (pos 2) 20 id_a (pos 1)) ≡ false)
        × (is_gt (triple_cmp 20 id_a (pos 1) 20 id_a (pos 2)) ≡ false)
        × (is_gt (triple_cmp 20 id_b (pos 1) 20 id_a (pos 2)) ≡ true)
        × (is_gt (triple_cmp 20 id_a (negsuc 0) 20 id_a (pos 0)) ≡ false) }
{}

/// Two timers are due, at 20 and at 30: an expiry takes the one at 20, and not the other, whose id is the lesser.
pub fn earlier_of_two_timers()
    ensures { let first = receives start vlr_b
        (begin_in NetworkLocUp (update_of first_imsi at_b ∷ [])) id_b in
        let other = receives (waits first.state 1 10) vlr_b (begin_in NetworkLocUp (update_of fifth_imsi at_b ∷ [])) id_a in
        let both = waits other.state 1 30 in
        let takes = λ (id : List ℕ). TurnsTo both (Expire 1) (expiry_at id (both.dialogues id) (pos 1)) in
        takes id_b × (takes id_a → ⊥) }
{}

/// A timer is due when the clock has come to its deadline, and not before.
pub fn due_at_the_deadline()
    ensures { let begun = receives start vlr_b
        (begin_in NetworkLocUp (update_of first_imsi at_b ∷ [])) id_b in
        let is_due = λ (now : ℕ) (d : Dialogue) (v : Invocation). IsDue (waits begun.state 1 now) 1 id_b d (pos 1) v in
        ((d : Dialogue) × (v : Invocation) × is_due 20 d v)
        × ((d : Dialogue) (v : Invocation) → is_due 19 d v → ⊥) }
{}

/// Of two dialogues with a timer that is due, an expiry names that of the earlier one.
pub fn named_by_an_expiry()
    ensures { let first = receives start vlr_b
        (begin_in NetworkLocUp (update_of first_imsi at_b ∷ [])) id_b in
        let other = receives (waits first.state 1 10) vlr_b (begin_in NetworkLocUp (update_of fifth_imsi at_b ∷ [])) id_a in
        let both = waits other.state 1 30 in
        IsNamed both (Expire 1) id_b × (IsNamed both (Expire 1) id_a → ⊥) }
{}

/// A message for an id of four octets goes to the shard of its first octet, if there is such a shard, and otherwise to shard 0.
pub fn shards_of_ids()
    ensures { let shard_for = λ (id : List ℕ). route directory
        (Frame gateway (Read (continue_to id []))) in
        (shard_for (15 ∷ 0 ∷ 1 ∷ 0 ∷ []) ≡ 15)
        × (shard_for (16 ∷ 0 ∷ 1 ∷ 0 ∷ []) ≡ 0)
        × (shard_for (1 ∷ 0 ∷ 1 ∷ []) ≡ 0)
        × (route directory (Frame gateway (Read (End id_e None []))) ≡ 3)
        × (route directory (Frame gateway (Read (Abort id_e))) ≡ 3) }
{}

/// A Begin is for the subscriber that the argument of its first component names, even if that Invoke is linked and therefore
/// rejected; without such an argument it is for shard 0.
pub fn shards_of_begins()
    ensures { let shard_for = λ (component : Component). route directory
        (Frame vlr_b (Read (begin_in NetworkLocUp (component ∷ update_of second_imsi at_b ∷ [])))) in
        let linked = Invoke (pos 1) (Some (pos 9)) (Number 2) (Some (Typed (Update first_imsi at_b))) in
        (shard_for (update_of first_imsi at_b) ≡ 1)
        × (shard_for linked ≡ 1)
        × (shard_for (Bad None 0) ≡ 0)
        × ((receives start vlr_b (begin_in NetworkLocUp (linked ∷ [])) id_a).answer ≡ record {
          id = None;
          subject = Some first_imsi;
          sent = one vlr_b
              (SentEnd theirs (Some NetworkLocUp) (rejection (Some (pos 1)) OfInvoke 5 ∷ []) []);
        }) }
{}

/// A local id has four octets, the shard's first; of the other three one at least is not zero.
pub fn local_ids()
    ensures last_zero { IsIdOf 1 (1 ∷ 0 ∷ 16 ∷ 0 ∷ []) }
    ensures first_ones_zero { IsIdOf 1 (1 ∷ 0 ∷ 0 ∷ 7 ∷ []) }
    ensures all_zero { IsIdOf 1 (1 ∷ 0 ∷ 0 ∷ 0 ∷ []) → ⊥ }
    ensures of_another { IsIdOf 2 (1 ∷ 0 ∷ 16 ∷ 0 ∷ []) → ⊥ }
{}

/// A shard has at most 4,096 dialogues, its journal at most 65,536 entries, and there are sixteen shards.
pub fn limits_of_shards()
    ensures { (MAX_DIALOGUES ≡ 4096) × (MAX_ENTRIES ≡ 65536) × (SHARDS ≡ 16) }
{}
