//! Worked examples of short messages, purges, changes and full shards: what the definitions say of single messages, computed. The
//! subscribers and the registers A and B are those of `specs/Worked.antt`; the id for a dialogue that opens is given.

ghost use Rattle.std.specs.Prelude.{◌≡◌, ℕ, pos, List, Some, None, [], ◌∷◌, true, false};
ghost use Rattle.machine.specs.Received.{Component, End, Invoke, Number, OfInvoke, Read, ResultNotLast, Route, Typed};
ghost use Rattle.machine.specs.Sent.{Cancel, Cause, Insert, LocationCancellation, MsPurging, NetworkLocUp, PurgeResult, RouteResult, SentAbort, SentBegin, SentComponent, SentEnd, SentError, ShortMsgGateway, SubscriberDataMngt, SubscriptionWithdraw};
ghost use Rattle.machine.specs.State.{Data, IsFull, OperationSent, State};
ghost use Rattle.machine.specs.Step.{Answer, HasNoRoom, Step};
ghost use Rattle.machine.specs.Events.{Codes, Frame, Operator, Withdraw};
ghost use Rattle.machine.specs.SmRoute.{NoRoute, RouteTo, sm_route};
ghost use Rattle.machine_laws.specs.Worked.{at_a, at_b, begin_in, continue_to, directory, first_imsi, first_msisdn, first_record, fourth_msisdn, gateway, hlr, id_a, id_b, id_c, id_d, one, purge_of, result_of, route_of, second_imsi, second_msisdn, second_record, start, subscriber, theirs, update_of, vlr_a, vlr_b};
ghost use Rattle.machine_laws.specs.Play.{expires_at, is_changed, receives, waits};
ghost use Rattle.machine.specs.Effect.{rejection};
ghost use Rattle.machine.specs.Routing.{route};

// Short messages (TS 29.002, 12.1, MAP-SEND-ROUTING-INFO-FOR-SM)

/// The SM route of a subscriber whom a register serves.
pub fn first_route()
    ensures { (receives start gateway (begin_in ShortMsgGateway
        (route_of first_msisdn ∷ [])) id_a).answer.sent
        ≡ one gateway (SentEnd theirs (Some ShortMsgGateway) []
        (RouteResult (pos 1) first_imsi at_a.msc None ∷ [])) }
{}

/// No SM route: teleserviceNotProvisioned, absentSubscriberSM, and unknownSubscriber, whose frame is for shard 0. Either of the
/// codes allShortMessageServices and shortMessageMT-PP is enough.
pub fn route_errors()
    ensures errors { let asks = λ (msisdn : List ℕ).
        (receives start gateway (begin_in ShortMsgGateway
        (route_of msisdn ∷ [])) id_a).answer.sent in
        let answer = λ (code : ℕ). one gateway
        (SentEnd theirs (Some ShortMsgGateway) [] (SentError (pos 1) code ∷ [])) in
        (asks fourth_msisdn ≡ answer 11)
        × (asks second_msisdn ≡ answer 6)
        × (asks hlr ≡ answer 1) }
    ensures shard { route directory (Frame gateway
        (Read (begin_in ShortMsgGateway (route_of hlr ∷ [])))) ≡ 0 }
    ensures services { sm_route first_imsi
        (Some (subscriber first_msisdn (0x20 ∷ []) None (Some at_a)))
        ≡ RouteTo first_imsi at_a.msc None }
{}

/// Of two Invokes in a Begin the first is answered, the second rejected: resourceLimitation.
pub fn second_invoke_refused()
    ensures { (receives start gateway (begin_in ShortMsgGateway
        (route_of first_msisdn ∷ Invoke (pos 2) None (Number 45)
        (Some (Typed (Route first_msisdn))) ∷ [])) id_a).answer.sent
        ≡ one gateway (SentEnd theirs (Some ShortMsgGateway)
        (rejection (Some (pos 2)) OfInvoke 3 ∷ [])
        (RouteResult (pos 1) first_imsi at_a.msc None ∷ [])) }
{}

/// A subscriber whose subscription has ended is unknown; this is checked before the services.
pub fn withdrawn_is_unknown()
    ensures { sm_route first_imsi
        (Some (record first_record { codes = []; register = None; withdrawn = true }))
        ≡ NoRoute 1 }
{}

// Purges (TS 29.002, 8.1.6, MAP_PURGE_MS; TS 23.012, Purge MS)

/// A purge by the serving register sets the purged flag, and short messages find the subscriber absent; one by another register
/// changes nothing. Without a VLR number: dataMissing. Of an unknown subscriber: unknownSubscriber.
pub fn purge()
    ensures { let asks = λ (component : Component). receives start vlr_a
        (begin_in MsPurging (component ∷ [])) id_a in
        let answer = λ (component : SentComponent). one vlr_a
        (SentEnd theirs (Some MsPurging) [] (component ∷ [])) in
        ((asks (purge_of first_imsi (Some vlr_a))).answer.sent ≡ answer (PurgeResult (pos 1) true))
        × ((asks (purge_of first_imsi (Some vlr_a))).state.records first_imsi
        ≡ Some (record first_record { purged = true }))
        × ((receives (asks (purge_of first_imsi (Some vlr_a))).state gateway
        (begin_in ShortMsgGateway (route_of first_msisdn ∷ [])) id_a).answer.sent
        ≡ one gateway (SentEnd theirs (Some ShortMsgGateway) [] (SentError (pos 1) 6 ∷ [])))
        × ((asks (purge_of first_imsi (Some vlr_b))).answer.sent
        ≡ answer (PurgeResult (pos 1) false))
        × ((asks (purge_of first_imsi (Some vlr_b))).state.records first_imsi ≡ Some first_record)
        × ((asks (purge_of first_imsi None)).answer.sent ≡ answer (SentError (pos 1) 35))
        × ((asks (purge_of hlr (Some vlr_a))).answer.sent ≡ answer (SentError (pos 1) 1)) }
{}

/// A purge by a VLR whose number begins that of the serving one changes nothing.
pub fn purge_by_a_prefix()
    ensures { let asked = receives start vlr_a
        (begin_in MsPurging (purge_of first_imsi (Some (4 ∷ 4 ∷ [])) ∷ [])) id_a in
        (asked.answer.sent ≡ one vlr_a
        (SentEnd theirs (Some MsPurging) [] (PurgeResult (pos 1) false ∷ [])))
        × (asked.state.records first_imsi ≡ Some first_record) }
{}

/// Without a VLR number dataMissing comes first, even for an unknown subscriber. If no register serves, there is no freezeTMSI. A
/// register that is already purged is answered freezeTMSI again. A purge during an update does not affect the update. A
/// withdrawal clears the purged flag.
pub fn purges_at_other_times()
    ensures without_number { (receives start vlr_a
        (begin_in MsPurging (purge_of hlr None ∷ [])) id_a).answer.sent
        ≡ one vlr_a (SentEnd theirs (Some MsPurging) [] (SentError (pos 1) 35 ∷ [])) }
    ensures without_register { (receives start vlr_a
        (begin_in MsPurging (purge_of second_imsi (Some vlr_a) ∷ [])) id_d).answer.sent
        ≡ one vlr_a (SentEnd theirs (Some MsPurging) [] (PurgeResult (pos 1) false ∷ [])) }
    ensures twice { let by_a = begin_in MsPurging (purge_of first_imsi (Some vlr_a) ∷ []) in
        (receives (receives start vlr_a by_a id_a).state vlr_a by_a id_a).answer.sent
        ≡ one vlr_a (SentEnd theirs (Some MsPurging) [] (PurgeResult (pos 1) true ∷ [])) }
    ensures withdrawn { let purged = receives start vlr_a
        (begin_in MsPurging (purge_of first_imsi (Some vlr_a) ∷ [])) id_a in
        (is_changed purged.state first_imsi Withdraw id_a).state.records first_imsi
        ≡ Some (record first_record { register = None; withdrawn = true }) }
    ensures during_update { let begun = receives start vlr_b
        (begin_in NetworkLocUp (update_of first_imsi at_b ∷ [])) id_a in
        let purged = receives begun.state vlr_a (begin_in MsPurging (purge_of first_imsi (Some vlr_a) ∷ [])) id_b in
        let done = receives purged.state vlr_b (continue_to id_a (result_of (pos 1) ∷ [])) id_b in
        (purged.state.records first_imsi
        ≡ Some (record first_record { purged = true; current = Some id_a }))
        × (done.state.records first_imsi ≡ Some (record first_record { register = Some at_b })) }
{}

// Changes (profile; TS 29.002, 8.8.1, MAP-INSERT-SUBSCRIBER-DATA, and 8.1.3, MAP_CANCEL_LOCATION)

/// New codes go to the serving register. Its End, its result or the expiry of the timer ends the dialogue, with an End once it is
/// Active, and nothing is sent again. Without a code for short messages there is no SM route any more.
pub fn codes_changed()
    ensures { let changed = is_changed start first_imsi (Codes (0x11 ∷ 0x22 ∷ [])) id_a in
        let over = receives changed.state vlr_a (End id_a None (result_of (pos 1) ∷ [])) id_b in
        (changed.answer.sent ≡ one vlr_a
        (SentBegin id_a SubscriberDataMngt
        (Insert (pos 1) (Some first_imsi) (Some first_msisdn) (0x11 ∷ 0x22 ∷ []) ∷ [])))
        × (over.answer.sent ≡ [])
        × (over.state.dialogues id_a ≡ None)
        × ((receives over.state gateway (begin_in ShortMsgGateway
        (route_of first_msisdn ∷ [])) id_b).answer.sent
        ≡ one gateway (SentEnd theirs (Some ShortMsgGateway) [] (SentError (pos 1) 11 ∷ [])))
        × ((receives changed.state vlr_a
        (continue_to id_a (result_of (pos 1) ∷ [])) id_b).answer.sent
        ≡ one vlr_a (SentEnd theirs None [] []))
        × ((receives changed.state vlr_a
        (continue_to id_a (result_of (pos 1) ∷ [])) id_b).state.dialogues id_a ≡ None)
        × ((expires_at (waits changed.state 1 20) id_a (pos 1) id_b).answer.sent ≡ [])
        × ((expires_at (waits changed.state 1 20) id_a (pos 1) id_b).state.dialogues id_a ≡ None)
        × ((expires_at (waits (receives changed.state vlr_a
        (continue_to id_a (ResultNotLast (pos 1) ∷ [])) id_b).state 1 20) id_a
        (pos 1) id_b).answer.sent
        ≡ one vlr_a (SentEnd theirs None [] []))
        × ((is_changed start second_imsi (Codes []) id_d).answer.sent ≡ [])
        × ((is_changed start hlr (Codes []) id_d).answer
        ≡ record { id = None; subject = None; sent = [] }) }
{}

/// New codes open a dialogue whose peer is the VLR number of the register, not its MSC number.
pub fn peer_of_new_codes()
    ensures { (is_changed start first_imsi (Codes (0x11 ∷ [])) id_a).state.dialogues id_a
        ≡ Some (record {
          subscriber = first_imsi;
          transaction = record { peer = at_a.vlr; remote = None };
          invocations = record { id = pos 1; was = OperationSent; deadline = 20 } ∷ [];
          kind = Data;
        }) }
{}

/// New codes during an update: the update fails when it would complete, whether or not a register served.
pub fn codes_during_update()
    ensures served { let begun = receives start vlr_b
        (begin_in NetworkLocUp (update_of first_imsi at_b ∷ [])) id_a in
        let changed = is_changed begun.state first_imsi (Codes (0x11 ∷ [])) id_b in
        let late = receives changed.state vlr_b (continue_to id_a (result_of (pos 1) ∷ [])) id_c in
        (changed.state.records first_imsi ≡ Some (record first_record { codes = 0x11 ∷ [] }))
        × (late.answer.sent ≡ one vlr_b (SentEnd theirs None [] (SentError (pos 1) 34 ∷ []))) }
    ensures unserved { let begun = receives start vlr_b
        (begin_in NetworkLocUp (update_of second_imsi at_b ∷ [])) id_d in
        let changed = is_changed begun.state second_imsi (Codes (0x11 ∷ [])) id_a in
        let late = receives changed.state vlr_b (continue_to id_d (result_of (pos 1) ∷ result_of (pos 2) ∷ [])) id_a in
        (changed.state.records second_imsi ≡ Some (record second_record { codes = 0x11 ∷ [] }))
        × (late.answer.sent ≡ one vlr_b (SentEnd theirs None [] (SentError (pos 1) 34 ∷ []))) }
{}

/// New codes are not sent to a purged register, but the record keeps them. Nothing of a withdrawn subscriber changes.
pub fn codes_not_told()
    ensures purged { let purged = receives start vlr_a
        (begin_in MsPurging (purge_of first_imsi (Some vlr_a) ∷ [])) id_a in
        let changed = is_changed purged.state first_imsi (Codes (0x11 ∷ [])) id_b in
        (changed.answer ≡ record { id = None; subject = Some first_imsi; sent = [] })
        × (changed.state.records first_imsi
        ≡ Some (record first_record { codes = 0x11 ∷ []; purged = true })) }
    ensures withdrawn { let gone = is_changed start first_imsi Withdraw id_a in
        let changed = is_changed gone.state first_imsi (Codes (0x11 ∷ [])) id_b in
        (changed.answer.sent ≡ [])
        × (changed.state.records first_imsi ≡ gone.state.records first_imsi) }
{}

/// Each repeat of a withdrawal's cancel says subscriptionWithdraw.
pub fn repeated_withdrawal()
    ensures { let cancels = λ (id : List ℕ). one vlr_a
        (SentBegin id LocationCancellation
        (Cancel (pos 1) first_imsi SubscriptionWithdraw ∷ [])) in
        let gone = is_changed start first_imsi Withdraw id_a in
        let second = expires_at (waits gone.state 1 20) id_a (pos 1) id_b in
        let third = expires_at (waits second.state 1 40) id_b (pos 1) id_c in
        (second.answer.sent ≡ cancels id_b) × (third.answer.sent ≡ cancels id_c) }
{}

/// A withdrawal cancels the register; then updates, purges and SM routes find no subscriber.
pub fn withdrawn()
    ensures { let gone = is_changed start first_imsi Withdraw id_a in
        (gone.answer.sent ≡ one vlr_a (SentBegin id_a LocationCancellation
        (Cancel (pos 1) first_imsi SubscriptionWithdraw ∷ [])))
        × (gone.state.records first_imsi
        ≡ Some (record first_record { register = None; withdrawn = true }))
        × ((receives gone.state vlr_b (begin_in NetworkLocUp
        (update_of first_imsi at_b ∷ [])) id_b).answer.sent
        ≡ one vlr_b (SentEnd theirs (Some NetworkLocUp) [] (SentError (pos 1) 1 ∷ [])))
        × ((receives gone.state vlr_b (begin_in MsPurging
        (purge_of first_imsi (Some vlr_a) ∷ [])) id_b).answer.sent
        ≡ one vlr_b (SentEnd theirs (Some MsPurging) [] (SentError (pos 1) 1 ∷ [])))
        × ((receives gone.state gateway (begin_in ShortMsgGateway
        (route_of first_msisdn ∷ [])) id_b).answer.sent
        ≡ one gateway (SentEnd theirs (Some ShortMsgGateway) [] (SentError (pos 1) 1 ∷ [])))
        × ((expires_at (waits gone.state 1 20) id_a (pos 1) id_b).answer.sent
        ≡ one vlr_a (SentBegin id_b LocationCancellation
        (Cancel (pos 1) first_imsi SubscriptionWithdraw ∷ []))) }
{}

/// A register that has purged the subscriber gets the cancel of a withdrawal too.
pub fn withdrawn_when_purged()
    ensures { let purged = receives start vlr_a
        (begin_in MsPurging (purge_of first_imsi (Some vlr_a) ∷ [])) id_a in
        (is_changed purged.state first_imsi Withdraw id_a).answer.sent
        ≡ one vlr_a (SentBegin id_a LocationCancellation
        (Cancel (pos 1) first_imsi SubscriptionWithdraw ∷ [])) }
{}

/// An update in progress when the subscription is withdrawn ends with systemFailure.
pub fn withdrawn_during_update()
    ensures { let begun = receives start vlr_b
        (begin_in NetworkLocUp (update_of first_imsi at_b ∷ [])) id_a in
        let gone = is_changed begun.state first_imsi Withdraw id_b in
        let late = receives gone.state vlr_b (continue_to id_a (result_of (pos 1) ∷ [])) id_c in
        (late.answer.sent ≡ one vlr_b (SentEnd theirs None [] (SentError (pos 1) 34 ∷ [])))
        × (late.state.records first_imsi
        ≡ Some (record first_record { register = None; withdrawn = true })) }
{}

// A full shard

/// In a full shard an update is aborted with resourceLimitation and changes nothing. An SM route is answered as usual.
pub fn full_shard()
    ensures update { (S : State) → IsFull S 1 → S.records first_imsi ≡ Some first_record
        → Step S (Frame vlr_b (Read (begin_in NetworkLocUp (update_of first_imsi at_b ∷ [])))) S
        (record {
          id = None;
          subject = Some first_imsi;
          sent = one vlr_b (SentAbort theirs (Cause 4));
        }) }
    ensures route_asked { (S : State) → IsFull S 1 → S.records first_imsi ≡ Some first_record
        → S.directory first_msisdn ≡ Some first_imsi
        → (T : State) × (a : Answer) × Step S
        (Frame gateway (Read (begin_in ShortMsgGateway (route_of first_msisdn ∷ [])))) T a
        × (a.sent ≡ one gateway (SentEnd theirs (Some ShortMsgGateway) []
        (RouteResult (pos 1) first_imsi at_a.msc None ∷ []))) }
{}

/// In a full shard there is no room for the withdrawal of a subscriber whom a register serves.
pub fn change_in_full_shard()
    ensures { (S : State) → IsFull S 1 → S.records first_imsi ≡ Some first_record
        → HasNoRoom S (Operator first_imsi Withdraw) }
{}
