//! Worked examples of states: what is the same of one subscriber in two states, what a procedure sees of the others, which records may
//! be loaded, and what is sound; who is a subscriber; a subscriber's own entries; ids and dialogues that open. The subscribers and the registers are those of `specs/Worked.antt`.

ghost use Rattle.std.specs.Prelude.{◌≡◌, ℕ, pos, List, Some, None, [], ◌∷◌, true};
ghost use Rattle.machine.specs.Sent.{MsPurging, NetworkLocUp};
ghost use Rattle.machine.specs.State.{Dialogue, OperationSent, State, local_of};
ghost use Rattle.machine.specs.Events.{Clock, Codes, Expire};
ghost use Rattle.machine.specs.Isolation.{SameOf, only_of};
ghost use Rattle.machine.specs.Legal.{Entry};
ghost use Rattle.machine.specs.Opening.{IsLoaded};
ghost use Rattle.machine.specs.Outcome.{Outcome};
ghost use Rattle.machine.specs.Sound.{SoundRecord};
ghost use Rattle.machine.specs.Step.{IsNewId, WouldOverflow};
ghost use Rattle.machine.specs.Turns.{Expires};
ghost use Rattle.machine_laws.specs.Worked.{at_b, begin_in, fifth_imsi, first_imsi, first_msisdn, first_record, id_a, id_b, purge_of, second_imsi, second_record, start, update_of, vlr_a, vlr_b};
ghost use Rattle.machine_laws.specs.Numbers.{msisdn_in, msisdn_of};
ghost use Rattle.machine_laws.specs.Play.{is_changed, receives};

/// A purge changes the record of its subscriber, and new codes that are the old ones open a dialogue: either state after is not
/// the same of this subscriber as the state before, but of another in the same shard it is.
pub fn same_of_another()
    ensures record_of { let purged = receives start vlr_a
        (begin_in MsPurging (purge_of first_imsi (Some vlr_a) ∷ [])) id_a in
        SameOf fifth_imsi start purged.state × (SameOf first_imsi start purged.state → ⊥) }
    ensures dialogue { let told = is_changed start first_imsi (Codes first_record.codes) id_a in
        SameOf fifth_imsi start told.state × (SameOf first_imsi start told.state → ⊥) }
{}

/// A procedure sees a dialogue of its own subscriber, and none of another in the same shard.
pub fn dialogues_of_another()
    ensures { let told = is_changed start first_imsi (Codes first_record.codes) id_a in
        (local_of told.state 1 fifth_imsi ≡ local_of start 1 fifth_imsi)
        × ((local_of told.state 1 first_imsi ≡ local_of start 1 first_imsi) → ⊥) }
{}

/// A record may be loaded with a register, purged or not, and withdrawn without one; not with an update in progress, purged
/// without a register, or withdrawn with one.
pub fn loaded_records()
    ensures loaded { IsLoaded (record first_record { purged = true })
        × IsLoaded (record second_record { withdrawn = true }) }
    ensures in_progress { IsLoaded (record first_record { current = Some id_a }) → ⊥ }
    ensures purged { IsLoaded (record second_record { purged = true }) → ⊥ }
    ensures withdrawn { IsLoaded (record first_record { withdrawn = true }) → ⊥ }
{}

/// Who has a record is a subscriber, under its MSISDN, also when withdrawn; nobody is one whose digits are no record's IMSI.
pub fn numbers_of_subscribers()
    ensures known { msisdn_in start first_imsi ≡ Some first_msisdn }
    ensures unknown { msisdn_in start first_msisdn ≡ None }
    ensures withdrawn { msisdn_of (Some (record first_record { codes = []; register = None; withdrawn = true }))
        ≡ Some first_msisdn }
{}

/// A sound record is purged only where a register serves, and marked only by an update that is open.
pub fn sound_records()
    ensures purged { SoundRecord (λ _. None) first_imsi (record first_record { purged = true }) }
    ensures nowhere { SoundRecord (λ _. None) second_imsi (record second_record { purged = true }) → ⊥ }
    ensures marked { SoundRecord (λ _. None) first_imsi (record first_record { current = Some id_a }) → ⊥ }
{}

/// A subscriber's own entries: those about it, and every clock value.
pub fn own_entries()
    ensures { let tick : Entry = record { event = Clock 1 5; answer = record { id = None; subject = None; sent = [] } } in
        let about : List ℕ → Entry = λ imsi.
        record { event = Expire 1; answer = record { id = None; subject = Some imsi; sent = [] } } in
        only_of (tick ∷ about first_imsi ∷ about fifth_imsi ∷ []) first_imsi ≡ tick ∷ about first_imsi ∷ [] }
{}

/// A new id names no open dialogue.
pub fn new_ids()
    ensures { let begun = receives start vlr_b
        (begin_in NetworkLocUp (update_of first_imsi at_b ∷ [])) id_b in
        IsNewId begun.state 1 id_a × (IsNewId begun.state 1 id_b → ⊥) }
{}

/// A dialogue that opens where another closes overflows no shard, however full it is.
pub fn opened_in_place()
    ensures { (S : State) (d : Dialogue) (o : Outcome)
        → WouldOverflow S 1 (Expires id_a d (pos 1) OperationSent) o → ⊥ }
{}
