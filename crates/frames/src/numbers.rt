//! The numbers and octet strings of the standards that only octets have. The other numbers stand in `machine`, the limits of a
//! frame in `x690`.

/// The abstract syntax of dialogue portions (Q.773): dialogue-as-id, version 1.
pub const DIALOGUE_AS_ID: [u8; 7] = [0x00, 0x11, 0x86, 0x05, 0x01, 0x01, 0x01];

/// Version 1 of the dialogue portion's protocol as a BIT STRING (X.690, 8.6): seven bits unused, the first set.
pub const VERSION_1: [u8; 2] = [0x07, 0x80];

// P-Abort causes (Q.773, P-AbortCause) of what cannot be read.

/// The tag is of no message.
pub const UNRECOGNIZED_MESSAGE_TYPE: u8 = 0;

/// A Continue has no destination transaction id.
pub const BADLY_FORMATTED_TRANSACTION_PORTION: u8 = 2;

/// A message has an unexpected child, or an unreadable dialogue portion.
pub const INCORRECT_TRANSACTION_PORTION: u8 = 3;

// General problems (Q.773).

/// The tag is of no component.
pub const UNRECOGNIZED_COMPONENT: u8 = 0;

/// The component has any other fault.
pub const MISTYPED_COMPONENT: u8 = 1;

// The result of an AARE, and the user's diagnostics (Q.773).

/// The dialogue is accepted.
pub const ACCEPTED: u8 = 0;

/// The dialogue is refused.
pub const REJECT_PERMANENT: u8 = 1;

/// The diagnostic null.
pub const NO_DIAGNOSTIC: u8 = 0;

/// The diagnostic application-context-name-not-supported.
pub const CONTEXT_NAME_NOT_SUPPORTED: u8 = 2;

// Operations (TS 29.002, MAP-MobileServiceOperations and MAP-ShortMessageServiceOperations).

/// cancelLocation (8.1.3, MAP_CANCEL_LOCATION).
pub const CANCEL_LOCATION: u8 = 3;

/// insertSubscriberData (8.8.1, MAP-INSERT-SUBSCRIBER-DATA).
pub const INSERT_SUBSCRIBER_DATA: u8 = 7;

// Values (TS 29.002, MAP-ER-DataTypes and MAP-MS-DataTypes).

/// The roamingNotAllowedCause that is sent: plmnRoamingNotAllowed.
pub const PLMN_ROAMING_NOT_ALLOWED: u8 = 0;

/// The subscriberStatus that is sent: serviceGranted.
pub const SERVICE_GRANTED: u8 = 0;

/// The cancellationType updateProcedure.
pub const UPDATE_PROCEDURE: u8 = 0;

/// The cancellationType subscriptionWithdraw.
pub const SUBSCRIPTION_WITHDRAW: u8 = 1;
