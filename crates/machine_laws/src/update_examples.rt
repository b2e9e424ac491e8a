//! Worked examples of updates, of the cancels that follow them and of who holds a subscriber: what the definitions say of single
//! messages, computed. The subscribers and the registers A, B and C are those of `specs/Worked.antt`; the id for a dialogue that
//! opens is given.

ghost use Rattle.std.specs.Prelude.{◌≡◌, ℕ, pos, List, Some, None, [], ◌∷◌, ◌++◌, true, false};
ghost use Rattle.machine.specs.Received.{Abort, BadValue, Component, End, Invoke, Mistyped, Number, OfInvoke, Register, ResultNotLast, ReturnError, Route, Typed, Update};
ghost use Rattle.machine.specs.Sent.{Cancel, Insert, LocationCancellation, MsPurging, NetworkLocUp, Out, RouteResult, SentBegin, SentContinue, SentEnd, SentError, ShortMsgGateway, UpdateProcedure, UpdateResult};
ghost use Rattle.machine.specs.State.{Cancels, OperationSent, State};
ghost use Rattle.machine.specs.Events.{Withdraw};
ghost use Rattle.machine.specs.Begins.{is_allowed};
ghost use Rattle.machine.specs.Holders.{held_after, held_by_none, holders};
ghost use Rattle.machine.specs.Outcome.{inserts, inserts_invoked, invoked};
ghost use Rattle.machine_laws.specs.Worked.{at_a, at_b, at_c, begin_in, continue_to, fifth_imsi, first_imsi, first_msisdn, first_record, gateway, hlr, id_a, id_b, id_c, id_d, id_e, one, purge_of, result_of, route_of, second_imsi, second_msisdn, second_record, start, theirs, third_imsi, third_msisdn, third_record, update_of, vlr_a, vlr_b, vlr_c};
ghost use Rattle.machine_laws.specs.Play.{expiry_entry, expires_at, message_entry, is_changed, receives, waits};
ghost use Rattle.machine.specs.Effect.{rejection};

// Updates (TS 29.002, 8.1.2, MAP_UPDATE_LOCATION; TS 23.012, Location updating)

/// Nine codes go in two inserts. The result of the second alone sends nothing; that of the first then completes the update.
/// There was no old register, so none is cancelled.
pub fn two_inserts()
    ensures { let begun = receives start vlr_b
        (begin_in NetworkLocUp (update_of second_imsi at_b ∷ [])) id_d in
        let half = receives begun.state vlr_b (continue_to id_d (result_of (pos 2) ∷ [])) id_a in
        let done = receives half.state vlr_b (continue_to id_d (result_of (pos 1) ∷ [])) id_a in
        (begun.answer.sent ≡ one vlr_b (SentContinue id_d theirs (Some NetworkLocUp) [] (
        Insert (pos 1) None (Some second_msisdn)
        (0x11 ∷ 0x12 ∷ 0x20 ∷ 0x21 ∷ 0x22 ∷ 0x61 ∷ 0x62 ∷ 0x91 ∷ [])
        ∷ Insert (pos 2) None None (0x92 ∷ []) ∷ [])))
        × (half.answer.sent ≡ [])
        × (done.answer.sent ≡ one vlr_b (SentEnd theirs None [] (UpdateResult (pos 1) hlr ∷ [])))
        × (done.answer.id ≡ None)
        × (done.state.records second_imsi ≡ Some (record second_record { register = Some at_b })) }
{}

/// Seventeen codes go in three inserts, eight in one. Each insert has the id of its invocation, and the IMSI if no update names
/// it.
pub fn three_inserts()
    ensures { let seventeen =
        1 ∷ 2 ∷ 3 ∷ 4 ∷ 5 ∷ 6 ∷ 7 ∷ 8 ∷ 9 ∷ 10 ∷ 11 ∷ 12 ∷ 13 ∷ 14 ∷ 15 ∷ 16 ∷ 17 ∷ [] in
        let eight = 1 ∷ 2 ∷ 3 ∷ 4 ∷ 5 ∷ 6 ∷ 7 ∷ 8 ∷ [] in
        let next_eight = 9 ∷ 10 ∷ 11 ∷ 12 ∷ 13 ∷ 14 ∷ 15 ∷ 16 ∷ [] in
        (inserts (Some first_imsi) first_msisdn seventeen
        ≡ Insert (pos 1) (Some first_imsi) (Some first_msisdn) eight
        ∷ Insert (pos 2) (Some first_imsi) None next_eight ∷ Insert (pos 3) (Some first_imsi) None (17 ∷ []) ∷ [])
        × (inserts_invoked 0 seventeen ≡ invoked 0 (pos 1) ∷ invoked 0 (pos 2) ∷ invoked 0
        (pos 3) ∷ [])
        × (inserts None first_msisdn eight ≡ Insert (pos 1) None (Some first_msisdn) eight ∷ []) }
{}

/// One insert of two fails: the update fails at once, while the other still waits for its answer.
pub fn one_insert_of_two_fails()
    ensures { let begun = receives start vlr_b
        (begin_in NetworkLocUp (update_of second_imsi at_b ∷ [])) id_d in
        let failed = receives begun.state vlr_b (continue_to id_d (ReturnError (pos 1) (Number 34) ∷ [])) id_a in
        (failed.answer.sent ≡ one vlr_b (SentEnd theirs None [] (SentError (pos 1) 34 ∷ [])))
        × (failed.state.dialogues id_d ≡ None) }
{}

/// An update completes: the result goes to its register, then a cancel to the old one, which is answered by an End. Short
/// messages go to the new register.
pub fn whole_update()
    ensures { let begun = receives start vlr_b
        (begin_in NetworkLocUp (update_of first_imsi at_b ∷ [])) id_a in
        let done = receives begun.state vlr_b (continue_to id_a (result_of (pos 1) ∷ [])) id_b in
        let over = receives done.state vlr_a (End id_b None (result_of (pos 1) ∷ [])) id_c in
        (begun.answer.sent ≡ one vlr_b (SentContinue id_a theirs (Some NetworkLocUp) []
        (Insert (pos 1) None (Some first_msisdn) first_record.codes ∷ [])))
        × (done.answer.sent ≡ record {
          to = vlr_b;
          message = SentEnd theirs None []
              (UpdateResult (pos 1) hlr ∷ []);
        }
        ∷ record {
          to = vlr_a;
          message = SentBegin id_b LocationCancellation
              (Cancel (pos 1) first_imsi UpdateProcedure ∷ []);
        } ∷ [])
        × (over.answer.sent ≡ [])
        × (over.state.dialogues id_a ≡ None)
        × (over.state.dialogues id_b ≡ None)
        × (over.state.records first_imsi ≡ Some (record first_record { register = Some at_b }))
        × ((receives over.state gateway (begin_in ShortMsgGateway
        (route_of first_msisdn ∷ [])) id_c).answer.sent
        ≡ one gateway (SentEnd theirs (Some ShortMsgGateway) []
        (RouteResult (pos 1) first_imsi at_b.msc None ∷ []))) }
{}

/// An update that another one overtook ends with systemFailure, and the record stays with the other.
pub fn overtaken_update()
    ensures { let first = receives start vlr_b
        (begin_in NetworkLocUp (update_of first_imsi at_b ∷ [])) id_a in
        let second = receives first.state vlr_c (begin_in NetworkLocUp (update_of first_imsi at_c ∷ [])) id_b in
        let done = receives second.state vlr_c (continue_to id_b (result_of (pos 1) ∷ [])) id_c in
        let late = receives done.state vlr_b (continue_to id_a (result_of (pos 1) ∷ [])) id_b in
        (done.answer.sent ≡ record {
          to = vlr_c;
          message = SentEnd theirs None []
              (UpdateResult (pos 1) hlr ∷ []);
        }
        ∷ record {
          to = vlr_a;
          message = SentBegin id_c LocationCancellation
              (Cancel (pos 1) first_imsi UpdateProcedure ∷ []);
        } ∷ [])
        × (late.answer.sent ≡ one vlr_b (SentEnd theirs None [] (SentError (pos 1) 34 ∷ [])))
        × (late.state.records first_imsi ≡ Some (record first_record { register = Some at_c })) }
{}

/// The same update twice: the first ends with systemFailure, the second completes.
pub fn same_update_twice()
    ensures { let first = receives start vlr_b
        (begin_in NetworkLocUp (update_of first_imsi at_b ∷ [])) id_a in
        let second = receives first.state vlr_b (begin_in NetworkLocUp (update_of first_imsi at_b ∷ [])) id_b in
        let late = receives second.state vlr_b (continue_to id_a (result_of (pos 1) ∷ [])) id_c in
        let done = receives late.state vlr_b (continue_to id_b (result_of (pos 1) ∷ [])) id_c in
        (second.answer.sent ≡ one vlr_b (SentContinue id_b theirs (Some NetworkLocUp) []
        (Insert (pos 1) None (Some first_msisdn) first_record.codes ∷ [])))
        × (late.answer.sent ≡ one vlr_b (SentEnd theirs None [] (SentError (pos 1) 34 ∷ [])))
        × (done.answer.sent ≡ record {
          to = vlr_b;
          message = SentEnd theirs None []
              (UpdateResult (pos 1) hlr ∷ []);
        }
        ∷ record {
          to = vlr_a;
          message = SentBegin id_c LocationCancellation
              (Cancel (pos 1) first_imsi UpdateProcedure ∷ []);
        } ∷ []) }
{}

/// An End or an Abort closes an update, which then is no longer the current one. Nothing is sent.
pub fn closed_updates()
    ensures { let begun = receives start vlr_b
        (begin_in NetworkLocUp (update_of first_imsi at_b ∷ [])) id_a in
        let ended = receives begun.state vlr_b (End id_a None []) id_b in
        let aborted = receives begun.state vlr_b (Abort id_a) id_b in
        (begun.state.records first_imsi ≡ Some (record first_record { current = Some id_a }))
        × (ended.answer.sent ≡ [])
        × (ended.state.dialogues id_a ≡ None)
        × (ended.state.records first_imsi ≡ Some first_record)
        × (aborted.answer.sent ≡ [])
        × (aborted.state.dialogues id_a ≡ None)
        × (aborted.state.records first_imsi ≡ Some first_record) }
{}

/// An update of a purged record completes with a cancel to the purged register all the same.
pub fn purged_register_cancelled()
    ensures { let purged = receives start vlr_a
        (begin_in MsPurging (purge_of first_imsi (Some vlr_a) ∷ [])) id_a in
        let begun = receives purged.state vlr_b (begin_in NetworkLocUp (update_of first_imsi at_b ∷ [])) id_a in
        let done = receives begun.state vlr_b (continue_to id_a (result_of (pos 1) ∷ [])) id_b in
        (done.answer.sent ≡ record {
          to = vlr_b;
          message = SentEnd theirs None []
              (UpdateResult (pos 1) hlr ∷ []);
        }
        ∷ record {
          to = vlr_a;
          message = SentBegin id_b LocationCancellation
              (Cancel (pos 1) first_imsi UpdateProcedure ∷ []);
        } ∷ [])
        × (done.state.records first_imsi ≡ Some (record first_record { register = Some at_b })) }
{}

/// An update from the register that serves already: its End, and no cancel. The MSC number is the new one, and the purged flag
/// is cleared.
pub fn update_from_the_serving_register()
    ensures { let purged = receives start vlr_a
        (begin_in MsPurging (purge_of first_imsi (Some vlr_a) ∷ [])) id_a in
        let register = record at_a { msc = at_b.msc } in
        let begun = receives purged.state vlr_a (begin_in NetworkLocUp (update_of first_imsi register ∷ [])) id_a in
        let done = receives begun.state vlr_a (continue_to id_a (result_of (pos 1) ∷ [])) id_b in
        (done.answer.sent ≡ one vlr_a (SentEnd theirs None [] (UpdateResult (pos 1) hlr ∷ [])))
        × (done.answer.id ≡ None)
        × (done.state.records first_imsi
        ≡ Some (record first_record { register = Some register })) }
{}

/// An update comes from an address other than its VLR number, with the invoke id 7: it is answered to that address under that
/// id, but its VLR number serves, and the cancel of the next update goes there. An update from the VLR that already serves
/// stores the new LMSI, which an SM route returns and the next update drops.
pub fn update_from_another_address()
    ensures { let asks = λ (register : Register). begin_in NetworkLocUp
        (Invoke (pos 7) None (Number 2) (Some (Typed (Update first_imsi register))) ∷ []) in
        let completes = λ (S : State) (new : List ℕ). receives S gateway
        (continue_to id_a (result_of (pos 1) ∷ [])) new in
        let begun = receives start gateway (asks at_b) id_a in
        let done = completes begun.state id_b in
        let lmsi = Some (1 ∷ 2 ∷ 3 ∷ 4 ∷ []) in
        let with_lmsi = record at_b { lmsi = lmsi } in
        let again = completes (receives done.state gateway (asks with_lmsi) id_a).state id_c in
        let back = completes (receives again.state gateway (asks at_b) id_a).state id_c in
        (begun.answer.sent ≡ one gateway
        (SentContinue id_a theirs (Some NetworkLocUp) []
        (Insert (pos 1) None (Some first_msisdn) first_record.codes ∷ [])))
        × (done.answer.sent ≡ record {
          to = gateway;
          message = SentEnd theirs None []
              (UpdateResult (pos 7) hlr ∷ []);
        }
        ∷ record {
          to = vlr_a;
          message = SentBegin id_b LocationCancellation
              (Cancel (pos 1) first_imsi UpdateProcedure ∷ []);
        } ∷ [])
        × (again.answer.sent ≡ one gateway (SentEnd theirs None [] (UpdateResult (pos 7) hlr ∷ [])))
        × (again.state.records first_imsi
        ≡ Some (record first_record { register = Some with_lmsi }))
        × ((receives again.state gateway
        (begin_in ShortMsgGateway (Invoke (pos 7) None (Number 45)
        (Some (Typed (Route first_msisdn))) ∷ [])) id_c).answer.sent
        ≡ one gateway (SentEnd theirs (Some ShortMsgGateway) []
        (RouteResult (pos 7) first_imsi at_b.msc lmsi ∷ [])))
        × (back.state.records first_imsi ≡ Some (record first_record { register = Some at_b })) }
{}

/// Where a subscriber may roam: one matching prefix is enough, a number shorter than the prefix does not match, and the VLR
/// number must match, not the source address of the update.
pub fn roaming()
    ensures prefixes { (is_allowed (Some ((4 ∷ 4 ∷ 7 ∷ 8 ∷ []) ∷ (4 ∷ 4 ∷ 7 ∷ 7 ∷ []) ∷ [])) vlr_b
        ≡ true)
        × (is_allowed (Some ((4 ∷ 4 ∷ 7 ∷ 7 ∷ []) ∷ [])) (4 ∷ 4 ∷ []) ≡ false)
        × (is_allowed (Some []) vlr_b ≡ false) }
    ensures updates { let allowed = record at_b { vlr = 4 ∷ 4 ∷ 7 ∷ 8 ∷ 1 ∷ [] } in
        let asks = λ (from : List ℕ) (register : Register). receives start from
        (begin_in NetworkLocUp (update_of third_imsi register ∷ [])) id_e in
        ((asks vlr_b allowed).answer.sent
        ≡ one vlr_b (SentContinue id_e theirs (Some NetworkLocUp) []
        (Insert (pos 1) None (Some third_msisdn) third_record.codes ∷ [])))
        × ((asks vlr_b allowed).answer.id ≡ Some id_e)
        × ((asks allowed.vlr at_b).answer.sent
        ≡ one allowed.vlr (SentEnd theirs (Some NetworkLocUp) [] (SentError (pos 1) 8 ∷ []))) }
    ensures withdrawn { let gone = is_changed start third_imsi Withdraw id_e in
        (receives gone.state vlr_b (begin_in NetworkLocUp (update_of third_imsi at_b ∷ [])) id_e).answer.sent
        ≡ one vlr_b (SentEnd theirs (Some NetworkLocUp) [] (SentError (pos 1) 1 ∷ [])) }
{}

/// The error of an insert ends the update with systemFailure, and the register stays. So does its expiry.
pub fn insert_error()
    ensures { let begun = receives start vlr_b
        (begin_in NetworkLocUp (update_of first_imsi at_b ∷ [])) id_a in
        let failed = receives begun.state vlr_b (continue_to id_a (ReturnError (pos 1) (Number 34) ∷ [])) id_b in
        let expired = expires_at (waits begun.state 1 20) id_a (pos 1) id_b in
        (failed.answer.sent ≡ one vlr_b (SentEnd theirs None [] (SentError (pos 1) 34 ∷ [])))
        × (failed.state.records first_imsi ≡ Some first_record)
        × (failed.state.dialogues id_a ≡ None)
        × (expired.answer.sent ≡ one vlr_b (SentEnd theirs None [] (SentError (pos 1) 34 ∷ [])))
        × (expired.state.records first_imsi ≡ Some first_record)
        × (expired.state.dialogues id_a ≡ None) }
{}

/// Two subscribers of one shard. When the timers of both are due, one expiry ends the update of the first alone, and the next
/// that of the other.
pub fn one_subscriber_alone()
    ensures { let first = receives start vlr_b
        (begin_in NetworkLocUp (update_of first_imsi at_b ∷ [])) id_a in
        let other = receives (waits first.state 1 5) vlr_b (begin_in NetworkLocUp (update_of fifth_imsi at_b ∷ [])) id_b in
        let expired = expires_at (waits other.state 1 25) id_a (pos 1) id_c in
        let again = expires_at expired.state id_b (pos 1) id_c in
        (first.answer.subject ≡ Some first_imsi)
        × (other.answer.subject ≡ Some fifth_imsi)
        × (expired.answer ≡ record {
          id = None;
          subject = Some first_imsi;
          sent = one vlr_b
              (SentEnd theirs None [] (SentError (pos 1) 34 ∷ []));
        })
        × (expired.state.dialogues id_a ≡ None)
        × (expired.state.dialogues id_b ≡ other.state.dialogues id_b)
        × (again.answer ≡ record {
          id = None;
          subject = Some fifth_imsi;
          sent = one vlr_b
              (SentEnd theirs None [] (SentError (pos 1) 34 ∷ []));
        })
        × (again.state.dialogues id_b ≡ None) }
{}

/// An update without a parameter is rejected: mistypedParameter; another operation: unrecognizedOperation; one with a linked id:
/// unrecognizedLinkedID. A bad value, a VLR where the subscriber may not roam, and an unknown subscriber are answered with
/// errors.
pub fn refused_updates()
    ensures { let asks = λ (component : Component).
        (receives start vlr_b (begin_in NetworkLocUp (component ∷ [])) id_a).answer.sent in
        let rejected = λ (problem : ℕ). one vlr_b
        (SentEnd theirs (Some NetworkLocUp)
        (rejection (Some (pos 1)) OfInvoke problem ∷ []) []) in
        let error = λ (code : ℕ). one vlr_b
        (SentEnd theirs (Some NetworkLocUp) [] (SentError (pos 1) code ∷ [])) in
        (asks (Invoke (pos 1) None (Number 2) None) ≡ rejected 2)
        × (asks (Invoke (pos 1) None (Number 2) (Some Mistyped)) ≡ rejected 2)
        × (asks (Invoke (pos 1) None (Number 3) (Some Mistyped)) ≡ rejected 1)
        × (asks (Invoke (pos 1) (Some (pos 9)) (Number 2) (Some (Typed (Update first_imsi at_b))))
        ≡ rejected 5)
        × (asks (Invoke (pos 1) None (Number 2) (Some (Typed BadValue))) ≡ error 36)
        × (asks (update_of third_imsi at_b) ≡ error 8)
        × (asks (update_of hlr at_b) ≡ error 1) }
{}

// Cancels (TS 29.002, 8.1.3, MAP_CANCEL_LOCATION; TS 23.012, Location cancellation)

/// A cancel that is not answered is sent again twice, each time with a new id; then no dialogue is open.
pub fn repeated_cancel()
    ensures { let begun = receives start vlr_b
        (begin_in NetworkLocUp (update_of first_imsi at_b ∷ [])) id_a in
        let done = receives begun.state vlr_b (continue_to id_a (result_of (pos 1) ∷ [])) id_b in
        let second = expires_at (waits done.state 1 20) id_b (pos 1) id_c in
        let third = expires_at (waits second.state 1 40) id_c (pos 1) id_a in
        let last = expires_at (waits third.state 1 60) id_a (pos 1) id_b in
        (second.answer.sent ≡ one vlr_a (SentBegin id_c LocationCancellation
        (Cancel (pos 1) first_imsi UpdateProcedure ∷ [])))
        × (second.state.dialogues id_b ≡ None)
        × (third.answer.sent ≡ one vlr_a
        (SentBegin id_a LocationCancellation (Cancel (pos 1) first_imsi UpdateProcedure ∷ [])))
        × (last.answer.sent ≡ [])
        × (last.state.dialogues id_a ≡ None)
        × (last.state.dialogues id_b ≡ None) }
{}

/// A cancel is not repeated to the register of an update that has begun meanwhile, nor to one that serves again.
pub fn cancel_not_repeated()
    ensures { let begun = receives start vlr_b
        (begin_in NetworkLocUp (update_of first_imsi at_b ∷ [])) id_a in
        let done = receives begun.state vlr_b (continue_to id_a (result_of (pos 1) ∷ [])) id_b in
        let back = receives (waits done.state 1 10) vlr_a (begin_in NetworkLocUp (update_of first_imsi at_a ∷ [])) id_c in
        let home = receives back.state vlr_a (continue_to id_c (result_of (pos 1) ∷ [])) id_d in
        let while_open = expires_at (waits back.state 1 20) id_b (pos 1) id_d in
        let afterwards = expires_at (waits home.state 1 20) id_b (pos 1) id_c in
        (while_open.answer.sent ≡ [])
        × (while_open.state.dialogues id_b ≡ None)
        × (afterwards.answer.sent ≡ [])
        × (afterwards.state.dialogues id_b ≡ None) }
{}

/// The first Continue of a cancel sets the peer's id and address; a result that is not the last one changes nothing more.
pub fn peer_of_a_cancel()
    ensures { let begun = receives start vlr_b
        (begin_in NetworkLocUp (update_of first_imsi at_b ∷ [])) id_a in
        let done = receives begun.state vlr_b (continue_to id_a (result_of (pos 1) ∷ [])) id_b in
        let met = receives done.state gateway (continue_to id_b (ResultNotLast (pos 1) ∷ [])) id_c in
        let over = receives met.state vlr_a (continue_to id_b (result_of (pos 1) ∷ [])) id_c in
        (met.answer.sent ≡ [])
        × (met.state.dialogues id_b ≡ Some (record {
          subscriber = first_imsi;
          transaction = record { peer = gateway; remote = Some theirs };
          invocations = record { id = pos 1; was = OperationSent; deadline = 20 } ∷ [];
          kind = Cancels vlr_a 1 UpdateProcedure;
        }))
        × (over.answer.sent ≡ one gateway (SentEnd theirs None [] []))
        × (over.state.dialogues id_b ≡ None) }
{}

/// A cancel that expires after its peer has answered once: an End goes to the peer, and then the next attempt to the register.
pub fn active_cancel_repeated()
    ensures { let begun = receives start vlr_b
        (begin_in NetworkLocUp (update_of first_imsi at_b ∷ [])) id_a in
        let done = receives begun.state vlr_b (continue_to id_a (result_of (pos 1) ∷ [])) id_b in
        let met = receives done.state gateway (continue_to id_b (ResultNotLast (pos 1) ∷ [])) id_c in
        let over = expires_at (waits met.state 1 20) id_b (pos 1) id_c in
        (over.answer.sent ≡ record { to = gateway; message = SentEnd theirs None [] [] }
        ∷ record {
          to = vlr_a;
          message = SentBegin id_c LocationCancellation
              (Cancel (pos 1) first_imsi UpdateProcedure ∷ []);
        } ∷ [])
        × (over.state.dialogues id_b ≡ None) }
{}

/// Who holds a subscriber, determined from a journal: the old register until it is cancelled, then the new one. A register that
/// serves again still holds when its cancel has expired, and is not cancelled again; a purged register no longer holds once it is
/// cancelled. The frames of one entry count in their order, and a cancel of another subscriber does not count.
pub fn holders_of_journals()
    ensures again { let to_b = begin_in NetworkLocUp (update_of first_imsi at_b ∷ []) in
        let to_a = begin_in NetworkLocUp (update_of first_imsi at_a ∷ []) in
        let begun = receives start vlr_b to_b id_a in
        let done = receives begun.state vlr_b (continue_to id_a (result_of (pos 1) ∷ [])) id_b in
        let back = receives (waits done.state 1 10) vlr_a to_a id_c in
        let home = receives back.state vlr_a (continue_to id_c (result_of (pos 1) ∷ [])) id_d in
        let over = expires_at (waits home.state 1 20) id_b (pos 1) id_c in
        let moved = message_entry vlr_b to_b begun ∷ message_entry vlr_b (continue_to id_a (result_of (pos 1) ∷ [])) done ∷ [] in
        let returned =
        message_entry vlr_a to_a back
        ∷ message_entry vlr_a (continue_to id_c (result_of (pos 1) ∷ [])) home
        ∷ expiry_entry 1 over
        ∷ [] in
        (holders start [] first_imsi vlr_a ≡ true)
        × (holders start moved first_imsi vlr_a ≡ false)
        × (holders start moved first_imsi vlr_b ≡ true)
        × (holders start (moved ++ returned) first_imsi vlr_a ≡ true)
        × (holders start (moved ++ returned) first_imsi vlr_b ≡ false) }
    ensures purged { let purges = begin_in MsPurging (purge_of first_imsi (Some vlr_a) ∷ []) in
        let to_b = begin_in NetworkLocUp (update_of first_imsi at_b ∷ []) in
        let purged = receives start vlr_a purges id_a in
        let begun = receives purged.state vlr_b to_b id_a in
        let done = receives begun.state vlr_b (continue_to id_a (result_of (pos 1) ∷ [])) id_b in
        let journal =
        message_entry vlr_a purges purged
        ∷ message_entry vlr_b to_b begun
        ∷ message_entry vlr_b (continue_to id_a (result_of (pos 1) ∷ [])) done
        ∷ [] in
        (holders start (message_entry vlr_a purges purged ∷ []) first_imsi vlr_a ≡ true)
        × (holders start journal first_imsi vlr_a ≡ false)
        × (holders start journal first_imsi vlr_b ≡ true) }
    ensures in_order { let result : Out = record {
      to = vlr_b;
      message = SentEnd theirs None []
          (UpdateResult (pos 1) hlr ∷ []);
    } in
        let cancel : Out = record {
          to = vlr_b;
          message = SentBegin id_b LocationCancellation
              (Cancel (pos 1) first_imsi UpdateProcedure ∷ []);
        } in
        let of_another : Out = record {
          to = vlr_b;
          message = SentBegin id_b LocationCancellation
              (Cancel (pos 1) fifth_imsi UpdateProcedure ∷ []);
        } in
        (held_after first_imsi true (Some vlr_b) (result ∷ of_another ∷ []) held_by_none vlr_b
        ≡ true)
        × (held_after first_imsi true (Some vlr_b) (result ∷ cancel ∷ []) held_by_none vlr_b
        ≡ false)
        × (held_after first_imsi true (Some vlr_b) (cancel ∷ result ∷ []) held_by_none vlr_b
        ≡ true) }
{}
