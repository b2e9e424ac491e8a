//! The worked examples: received and sent frames, octet for octet.

ghost use Rattle.frames_laws.specs.Examples.{FirstRoute, IndefiniteRoute, RouteErrors, BadlyFormedTransactions, UnknownDialogues, ShortIds, TwoInserts, WholeUpdate, RepeatedCancel, OvertakenUpdate, PurgeAnswered, RefusedContexts, ResultOfUnknownInvoke, SecondInvokeRefused, InsertError, LateAndLinkedComponents, RefusedUpdates, SameDigitsOtherKind, OptionalElements, CodesChanged, Withdrawn, FullShard, MostComponents, Components, DialoguePortions, HostileSpellings, LargestFrame, DeepestTree};
ghost use Rattle.frames_laws.specs.AccountExamples.{Accounts};
ghost use Rattle.frames_laws.specs.IdentityExamples.{DigitOctets, ImsiOctets, AddressOctets, OctetStrings};
ghost use Rattle.frames_laws.specs.TagExamples.{TagOctets, NumbersOfFrames, ElementsRead};
ghost use Rattle.frames_laws.specs.TreeExamples.{MessagesRead, ComponentsRead, ReadUnderItsTag, IndefiniteLengths};
ghost use Rattle.frames_laws.specs.PortionExamples.{UserInformation, NamesOfContexts, Versions, DialogueAborts, CodesOfComponents, LongTagNumbers, SentAddress, EventsFromOutside};

/// The first example: where a short message is routed to.
pub fn first_route()
    ensures { FirstRoute }
{}

/// The same frame with each constructed length indefinite.
pub fn indefinite_route()
    ensures { IndefiniteRoute }
{}

/// A route that is refused: absent, not provisioned, unknown.
pub fn route_errors()
    ensures { RouteErrors }
{}

/// Frames of another type, without an origin, and with another child.
pub fn badly_formed_transactions()
    ensures { BadlyFormedTransactions }
{}

/// Frames without an open dialogue, and a Continue without a destination id.
pub fn unknown_dialogues()
    ensures { UnknownDialogues }
{}

/// Ids are octet strings: three octets are not the same id as four.
pub fn short_ids()
    ensures { ShortIds }
{}

/// Nine codes go in two inserts.
pub fn two_inserts()
    ensures { TwoInserts }
{}

/// An update, its insert, the result of both, and the cancel at the old register.
pub fn whole_update()
    ensures { WholeUpdate }
{}

/// A cancel that is sent again has another id.
pub fn repeated_cancel()
    ensures { RepeatedCancel }
{}

/// An update that another one overtook ends with systemFailure.
pub fn overtaken_update()
    ensures { OvertakenUpdate }
{}

/// A purge by the serving register, by another, and without a VLR number.
pub fn purge()
    ensures { PurgeAnswered }
{}

/// Another version, another context, no context; and names of one octet and of 32.
pub fn refused_contexts()
    ensures { RefusedContexts }
{}

/// A result for no invocation is rejected.
pub fn result_of_unknown_invoke()
    ensures { ResultOfUnknownInvoke }
{}

/// Of two Invokes in a Begin the first is answered and the second rejected.
pub fn second_invoke_refused()
    ensures { SecondInvokeRefused }
{}

/// An insert is answered with an error.
pub fn insert_error()
    ensures { InsertError }
{}

/// A late result, an Invoke with an id in use, and an Invoke with a linked id.
pub fn late_and_linked_components()
    ensures { LateAndLinkedComponents }
{}

/// Updates without a parameter, with a short IMSI, of a subscriber who may not roam, and with another operation.
pub fn refused_updates()
    ensures { RefusedUpdates }
{}

/// An address with another first octet has the same digits; one without bit 8 is a bad value.
pub fn same_digits_other_kind()
    ensures { SameDigitsOtherKind }
{}

/// An lmsi, a vlr-Number and an sgsn-Number have exactly their tag; a constructed element in their place is a further element.
pub fn optional_elements()
    ensures { OptionalElements }
{}

/// New codes go to the register in a dialogue of their own, with the imsi.
pub fn codes_changed()
    ensures { CodesChanged }
{}

/// When a subscription ends, its register is cancelled with subscriptionWithdraw; then the subscriber is unknown.
pub fn withdrawn()
    ensures { Withdrawn }
{}

/// An update that meets a full shard is aborted.
pub fn full_shard()
    ensures { FullShard }
{}

/// Seventeen components are too many.
pub fn most_components()
    ensures { MostComponents }
{}

/// Each kind of component, and each fault.
pub fn components()
    ensures { Components }
{}

/// An AARE with its result and diagnostic, and portions that are unreadable or hold another APDU.
pub fn dialogue_portions()
    ensures { DialoguePortions }
{}

/// A length in four octets, and a tag with a long number.
pub fn hostile_spellings()
    ensures { HostileSpellings }
{}

/// A frame of 4,096 octets is read; one of 4,097 and an empty one are not.
pub fn largest_frame()
    ensures { LargestFrame }
{}

/// 32 levels are read, 33 are not.
pub fn deepest_tree()
    ensures { DeepestTree }
{}

/// A dialogue request and a dialogue response may end with user information of any contents, and with nothing else.
pub fn user_information()
    ensures { UserInformation }
{}

/// A context's name has 1 to 32 octets.
pub fn names_of_contexts()
    ensures { NamesOfContexts }
{}

/// A version is a BIT STRING whose first bit is set, with at most seven bits unused; it may be absent.
pub fn versions()
    ensures { Versions }
{}

/// A dialogue abort says who aborts, the user or the provider.
pub fn dialogue_aborts()
    ensures { DialogueAborts }
{}

/// An operation's and an error's code have at least one octet. Ids and linked ids are signed.
pub fn codes_of_components()
    ensures { CodesOfComponents }
{}

/// A long tag number has up to four octets (X.690, 8.1.2.4).
pub fn long_tag_numbers()
    ensures { LongTagNumbers }
{}

/// What is sent keeps its address.
pub fn sent_address()
    ensures { SentAddress }
{}

/// A clock value, an expiry and a change are each the event of the machine with the same parts, and a frame has its source.
pub fn events_from_outside()
    ensures { EventsFromOutside }
{}

/// What accounts for a job and what does not: an entry of another event or with other octets, a place that is named twice or
/// has no entry, two receipts or two jobs with one number, and a refusal. Without receipts the least number is at fault, and it is not 0.
pub fn accounts()
    ensures { Accounts }
{}

/// Two digits to an octet, the first in the low half, and a filler after an odd count (TS 29.002 17.7.8, TBCD-STRING).
pub fn digit_octets()
    ensures { DigitOctets }
{}

/// An IMSI has 5 to 15 digits.
pub fn imsi_octets()
    ensures { ImsiOctets }
{}

/// An address has an octet with bit 8 set and up to sixteen digits; its nature and numbering plan are not kept.
pub fn address_octets()
    ensures { AddressOctets }
{}

/// An LMSI has four octets, a transaction id one to four.
pub fn octet_strings()
    ensures { OctetStrings }
{}

/// Each tag has the identifier octet that the standards print.
pub fn tag_octets()
    ensures { TagOctets }
{}

/// Each number is the one that the standards print, or that the profile chooses.
pub fn numbers_of_frames()
    ensures { NumbersOfFrames }
{}

/// Versions, codes, names, syntaxes and priorities that are read, and those that are not.
pub fn elements_read()
    ensures { ElementsRead }
{}

/// After an Abort's id a cause or a dialogue portion may follow. A Begin with an unreadable dialogue portion is refused.
pub fn messages_read()
    ensures { MessagesRead }
{}

/// Results, parts of results and Rejects of both, and what becomes of ill-formed ones.
pub fn components_read()
    ensures { ComponentsRead }
{}

/// An element of each class is read under its own tag, and under no other.
pub fn read_under_its_tag()
    ensures { ReadUnderItsTag }
{}

/// The length octet 80 is one of constructed elements alone.
pub fn indefinite_lengths()
    ensures { IndefiniteLengths }
{}
