//! The tags that are read and sent (X.690, 8.1.2), each with its name in the standards.

use x690::{Class, Tag};

// Universal types (X.680; contents: X.690, 8.3 to 8.19).

/// `02`: an INTEGER.
pub const INTEGER: Tag = Tag {
    class: Class::Universal,
    constructed: false,
    number: 2,
};

/// `04`: an OCTET STRING.
pub const OCTET_STRING: Tag = Tag {
    class: Class::Universal,
    constructed: false,
    number: 4,
};

/// `05`: a NULL.
pub const NULL: Tag = Tag {
    class: Class::Universal,
    constructed: false,
    number: 5,
};

/// `06`: an OBJECT IDENTIFIER.
pub const OBJECT_IDENTIFIER: Tag = Tag {
    class: Class::Universal,
    constructed: false,
    number: 6,
};

/// `28`: an EXTERNAL.
pub const EXTERNAL: Tag = Tag {
    class: Class::Universal,
    constructed: true,
    number: 8,
};

/// `0A`: an ENUMERATED.
pub const ENUMERATED: Tag = Tag {
    class: Class::Universal,
    constructed: false,
    number: 10,
};

/// `30`: a SEQUENCE.
pub const SEQUENCE: Tag = Tag {
    class: Class::Universal,
    constructed: true,
    number: 16,
};

// Messages and their parts (Q.773).

/// `61`: a Unidirectional, which is not read.
pub const UNIDIRECTIONAL: Tag = Tag {
    class: Class::Application,
    constructed: true,
    number: 1,
};

/// `62`: a Begin.
pub const BEGIN: Tag = Tag {
    class: Class::Application,
    constructed: true,
    number: 2,
};

/// `64`: an End.
pub const END: Tag = Tag {
    class: Class::Application,
    constructed: true,
    number: 4,
};

/// `65`: a Continue.
pub const CONTINUE: Tag = Tag {
    class: Class::Application,
    constructed: true,
    number: 5,
};

/// `67`: an Abort.
pub const ABORT: Tag = Tag {
    class: Class::Application,
    constructed: true,
    number: 7,
};

/// `48`: the originating transaction id.
pub const ORIGIN: Tag = Tag {
    class: Class::Application,
    constructed: false,
    number: 8,
};

/// `49`: the destination transaction id.
pub const DESTINATION: Tag = Tag {
    class: Class::Application,
    constructed: false,
    number: 9,
};

/// `4A`: the P-Abort cause.
pub const ABORT_CAUSE: Tag = Tag {
    class: Class::Application,
    constructed: false,
    number: 10,
};

/// `6B`: the dialogue portion.
pub const DIALOGUE_PORTION: Tag = Tag {
    class: Class::Application,
    constructed: true,
    number: 11,
};

/// `6C`: the component portion.
pub const COMPONENT_PORTION: Tag = Tag {
    class: Class::Application,
    constructed: true,
    number: 12,
};

// Dialogue portions and their APDUs (Q.773).

/// `A0`: single-ASN1-type, the encoding of an EXTERNAL (X.690, 8.18).
pub const SINGLE_ASN1_TYPE: Tag = Tag {
    class: Class::ContextSpecific,
    constructed: true,
    number: 0,
};

/// `60`: an AARQ, a dialogue request.
pub const AARQ: Tag = Tag {
    class: Class::Application,
    constructed: true,
    number: 0,
};

/// `61`: an AARE, a dialogue response.
pub const AARE: Tag = Tag {
    class: Class::Application,
    constructed: true,
    number: 1,
};

/// `64`: an ABRT, a dialogue abort.
pub const ABRT: Tag = Tag {
    class: Class::Application,
    constructed: true,
    number: 4,
};

/// `80`: the protocol version.
pub const VERSION: Tag = Tag {
    class: Class::ContextSpecific,
    constructed: false,
    number: 0,
};

/// `A1`: the application context's name.
pub const CONTEXT_NAME: Tag = Tag {
    class: Class::ContextSpecific,
    constructed: true,
    number: 1,
};

/// `A2`: the result of an AARE.
pub const RESULT: Tag = Tag {
    class: Class::ContextSpecific,
    constructed: true,
    number: 2,
};

/// `A3`: the result source diagnostic of an AARE.
pub const RESULT_SOURCE: Tag = Tag {
    class: Class::ContextSpecific,
    constructed: true,
    number: 3,
};

/// `A1`: a diagnostic of the user.
pub const DIAGNOSTIC_OF_USER: Tag = Tag {
    class: Class::ContextSpecific,
    constructed: true,
    number: 1,
};

/// `A2`: a diagnostic of the provider.
pub const DIAGNOSTIC_OF_PROVIDER: Tag = Tag {
    class: Class::ContextSpecific,
    constructed: true,
    number: 2,
};

/// `80`: the abort source of an ABRT.
pub const ABORT_SOURCE: Tag = Tag {
    class: Class::ContextSpecific,
    constructed: false,
    number: 0,
};

/// `BE`: the user information, which is not read.
pub const USER_INFORMATION: Tag = Tag {
    class: Class::ContextSpecific,
    constructed: true,
    number: 30,
};

// Components and their parts (Q.773).

/// `A1`: an Invoke.
pub const INVOKE: Tag = Tag {
    class: Class::ContextSpecific,
    constructed: true,
    number: 1,
};

/// `A2`: a ReturnResultLast.
pub const RESULT_LAST: Tag = Tag {
    class: Class::ContextSpecific,
    constructed: true,
    number: 2,
};

/// `A3`: a ReturnError.
pub const RETURN_ERROR: Tag = Tag {
    class: Class::ContextSpecific,
    constructed: true,
    number: 3,
};

/// `A4`: a Reject.
pub const REJECT: Tag = Tag {
    class: Class::ContextSpecific,
    constructed: true,
    number: 4,
};

/// `A7`: a ReturnResultNotLast.
pub const RESULT_NOT_LAST: Tag = Tag {
    class: Class::ContextSpecific,
    constructed: true,
    number: 7,
};

/// `80`: the linked id of an Invoke.
pub const LINKED_ID: Tag = Tag {
    class: Class::ContextSpecific,
    constructed: false,
    number: 0,
};

/// `80`: a general problem.
pub const GENERAL_PROBLEM: Tag = Tag {
    class: Class::ContextSpecific,
    constructed: false,
    number: 0,
};

/// `81`: a problem of an Invoke.
pub const INVOKE_PROBLEM: Tag = Tag {
    class: Class::ContextSpecific,
    constructed: false,
    number: 1,
};

/// `82`: a problem of a ReturnResult.
pub const RESULT_PROBLEM: Tag = Tag {
    class: Class::ContextSpecific,
    constructed: false,
    number: 2,
};

/// `83`: a problem of a ReturnError.
pub const ERROR_PROBLEM: Tag = Tag {
    class: Class::ContextSpecific,
    constructed: false,
    number: 3,
};

// UpdateLocationArg (TS 29.002, 17.7.1).

/// `81`: the msc-Number.
pub const UPDATE_MSC_NUMBER: Tag = Tag {
    class: Class::ContextSpecific,
    constructed: false,
    number: 1,
};

/// `8A`: the lmsi.
pub const UPDATE_LMSI: Tag = Tag {
    class: Class::ContextSpecific,
    constructed: false,
    number: 10,
};

// InsertSubscriberDataArg (TS 29.002, 17.7.1).

/// `80`: the imsi.
pub const INSERT_IMSI: Tag = Tag {
    class: Class::ContextSpecific,
    constructed: false,
    number: 0,
};

/// `81`: the msisdn.
pub const INSERT_MSISDN: Tag = Tag {
    class: Class::ContextSpecific,
    constructed: false,
    number: 1,
};

/// `83`: the subscriberStatus.
pub const SUBSCRIBER_STATUS: Tag = Tag {
    class: Class::ContextSpecific,
    constructed: false,
    number: 3,
};

/// `A6`: the teleserviceList.
pub const TELESERVICE_LIST: Tag = Tag {
    class: Class::ContextSpecific,
    constructed: true,
    number: 6,
};

// CancelLocationArg (TS 29.002, 17.7.1).

/// `A3`: the argument.
pub const CANCEL_ARGUMENT: Tag = Tag {
    class: Class::ContextSpecific,
    constructed: true,
    number: 3,
};

// PurgeMS-Arg and PurgeMS-Res (TS 29.002, 17.7.1).

/// `A3`: the argument.
pub const PURGE_ARGUMENT: Tag = Tag {
    class: Class::ContextSpecific,
    constructed: true,
    number: 3,
};

/// `80`: the vlr-Number.
pub const PURGE_VLR_NUMBER: Tag = Tag {
    class: Class::ContextSpecific,
    constructed: false,
    number: 0,
};

/// `81`: the sgsn-Number, which is not read.
pub const PURGE_SGSN_NUMBER: Tag = Tag {
    class: Class::ContextSpecific,
    constructed: false,
    number: 1,
};

/// `80`: freezeTMSI, in the result.
pub const FREEZE_TMSI: Tag = Tag {
    class: Class::ContextSpecific,
    constructed: false,
    number: 0,
};

// RoutingInfoForSM-Arg and RoutingInfoForSM-Res (TS 29.002, 17.7.6).

/// `80`: the msisdn.
pub const ROUTE_MSISDN: Tag = Tag {
    class: Class::ContextSpecific,
    constructed: false,
    number: 0,
};

/// `81`: sm-RP-PRI.
pub const SM_RP_PRI: Tag = Tag {
    class: Class::ContextSpecific,
    constructed: false,
    number: 1,
};

/// `82`: the serviceCentreAddress.
pub const SERVICE_CENTRE: Tag = Tag {
    class: Class::ContextSpecific,
    constructed: false,
    number: 2,
};

/// `A0`: locationInfoWithLMSI, in the result.
pub const LOCATION_INFO: Tag = Tag {
    class: Class::ContextSpecific,
    constructed: true,
    number: 0,
};

/// `81`: the networkNode-Number.
pub const NETWORK_NODE_NUMBER: Tag = Tag {
    class: Class::ContextSpecific,
    constructed: false,
    number: 1,
};
