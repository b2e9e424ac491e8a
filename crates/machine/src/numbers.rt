//! The numbers of the standards by their names there, and the limits of this project's profile. The definitions in `specs/` read
//! them from here, and so does the code of the crates above. What only octets have stands in `frames`.

// Operations (TS 29.002, MAP-MobileServiceOperations and MAP-ShortMessageServiceOperations).

/// updateLocation (8.1.2, MAP_UPDATE_LOCATION).
pub const UPDATE_LOCATION: u8 = 2;

/// sendRoutingInfoForSM (12.1, MAP-SEND-ROUTING-INFO-FOR-SM).
pub const SEND_ROUTING_INFO_FOR_SM: u8 = 45;

/// purgeMS (8.1.6, MAP_PURGE_MS).
pub const PURGE_MS: u8 = 67;

// Application contexts (TS 29.002, MAP-ApplicationContexts).

/// What the names of MAP's contexts begin with: map-ac, the OBJECT IDENTIFIER 0.4.0.0.1.0 (X.690, 8.19).
pub const MAP_AC: [u8; 5] = [0x04, 0x00, 0x00, 0x01, 0x00];

/// networkLocUp.
pub const NETWORK_LOC_UP: u8 = 0x01;

/// locationCancellation.
pub const LOCATION_CANCELLATION: u8 = 0x02;

/// subscriberDataMngt.
pub const SUBSCRIBER_DATA_MNGT: u8 = 0x10;

/// shortMsgGateway.
pub const SHORT_MSG_GATEWAY: u8 = 0x14;

/// msPurging.
pub const MS_PURGING: u8 = 0x1B;

/// version3, the version that the register uses.
pub const VERSION_3: u8 = 3;

// Errors (TS 29.002, MAP-Errors).

/// unknownSubscriber.
pub const UNKNOWN_SUBSCRIBER: u8 = 1;

/// absentSubscriberSM.
pub const ABSENT_SUBSCRIBER_SM: u8 = 6;

/// roamingNotAllowed.
pub const ROAMING_NOT_ALLOWED: u8 = 8;

/// teleserviceNotProvisioned.
pub const TELESERVICE_NOT_PROVISIONED: u8 = 11;

/// systemFailure.
pub const SYSTEM_FAILURE: u8 = 34;

/// dataMissing.
pub const DATA_MISSING: u8 = 35;

/// unexpectedDataValue.
pub const UNEXPECTED_DATA_VALUE: u8 = 36;

// Teleservices (TS 29.002, MAP-TS-Code).

/// allShortMessageServices.
pub const ALL_SHORT_MESSAGE_SERVICES: u8 = 0x20;

/// shortMessageMT-PP: a short message to one mobile station.
pub const SHORT_MESSAGE_MT_PP: u8 = 0x21;

// P-Abort causes (Q.773, P-AbortCause). The causes of what cannot be read stand in `frames`.

/// unrecognizedTransactionID: no open dialogue has the destination's id.
pub const UNRECOGNIZED_TRANSACTION_ID: u8 = 1;

/// resourceLimitation: a message has too many components, or there is no room for a dialogue.
pub const RESOURCE_LIMITATION: u8 = 4;

// Problems of an Invoke (Q.773, InvokeProblem).

/// duplicateInvokeID.
pub const DUPLICATE_INVOKE_ID: u8 = 0;

/// unrecognizedOperation.
pub const UNRECOGNIZED_OPERATION: u8 = 1;

/// mistypedParameter.
pub const MISTYPED_PARAMETER: u8 = 2;

/// resourceLimitation.
pub const INVOKE_RESOURCE_LIMITATION: u8 = 3;

/// unrecognizedLinkedID.
pub const UNRECOGNIZED_LINKED_ID: u8 = 5;

/// linkedResponseUnexpected.
pub const LINKED_RESPONSE_UNEXPECTED: u8 = 6;

// Problems of a ReturnResult and of a ReturnError (Q.773, ReturnResultProblem and ReturnErrorProblem).

/// unrecognizedInvokeID, the same number in both: no own invocation is answered.
pub const UNRECOGNIZED_INVOKE_ID: u8 = 0;

// Timers and clocks, in ticks of a shard's clock (profile).

/// How long an answer to an own Invoke is waited for (Q.774, invocation timer).
pub const INVOCATION_TIMER: u64 = 20;

/// How long a Reject of that answer is waited for (Q.774, reject timer).
pub const REJECT_TIMER: u64 = 5;

/// The greatest clock value; a greater one counts as this one.
pub const MAX_CLOCK: u64 = 1 << 62;

// Limits (profile).

/// The most components in a message.
pub const MAX_COMPONENTS: usize = 16;

/// The most octets in an application context's name.
pub const MAX_CONTEXT_NAME: usize = 32;

/// The most teleservice codes in one insertSubscriberData.
pub const MAX_CODES_IN_INSERT: usize = 8;

/// The most attempts at a cancelLocation.
pub const MAX_ATTEMPTS: u8 = 3;

/// The number of shards.
pub const SHARDS: u8 = 16;

/// The most open dialogues in a shard.
pub const MAX_DIALOGUES: usize = 4096;

/// The most entries in a journal.
pub const MAX_ENTRIES: usize = 65_536;
