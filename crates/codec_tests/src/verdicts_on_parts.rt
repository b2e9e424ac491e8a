//! The place of every child of a component (ITU-T Q.773, 3.1), of the parameters (3GPP TS 29.002), and of a
//! dialogue portion (ITU-T Q.773, 3.2).

use crate::tables::{check, octets};
use crate::told::verdict_on;
use std::alloc::Global;
use std::test::Fail;

/// Component portions of a Begin from 00000001: the name, the octets, and the components that are read.
const COMPONENTS: &str = "
- an update
  | A1 24 02 01 01 02 01 02 30 1C 04 08 32 14 05 00 00 00 00 F1 81 07 91 44 77 00 09 00 20 04 07 91 44 77 00
    09 00 21
  | invoke 1 - 2 update 234150000000001 447700900012 447700900002 -
- an update with an lmsi
  | A1 2A 02 01 01 02 01 02 30 22 04 08 32 14 05 00 00 00 00 F1 81 07 91 44 77 00 09 00 20 04 07 91 44 77 00
    09 00 21 8A 04 00 00 00 2A
  | invoke 1 - 2 update 234150000000001 447700900012 447700900002 0000002A
- an update with a further element
  | A1 28 02 01 01 02 01 02 30 20 04 08 32 14 05 00 00 00 00 F1 81 07 91 44 77 00 09 00 20 04 07 91 44 77 00
    09 00 21 AA 02 05 00
  | invoke 1 - 2 update 234150000000001 447700900012 447700900002 -
- an update with an lmsi of three octets
  | A1 29 02 01 01 02 01 02 30 21 04 08 32 14 05 00 00 00 00 F1 81 07 91 44 77 00 09 00 20 04 07 91 44 77 00
    09 00 21 8A 03 00 00 2A
  | invoke 1 - 2 bad value
- an update with a short imsi
  | A1 1E 02 01 01 02 01 02 30 16 04 02 32 14 81 07 91 44 77 00 09 00 20 04 07 91 44 77 00 09 00 21
  | invoke 1 - 2 bad value
- an update with an address without bit 8
  | A1 24 02 01 01 02 01 02 30 1C 04 08 32 14 05 00 00 00 00 F1 81 07 91 44 77 00 09 00 20 04 07 11 44 77 00
    09 00 21
  | invoke 1 - 2 bad value
- an update without its vlr-Number
  | A1 1B 02 01 01 02 01 02 30 13 04 08 32 14 05 00 00 00 00 F1 81 07 91 44 77 00 09 00 20
  | invoke 1 - 2 mistyped
- an update in another element
  | A1 24 02 01 01 02 01 02 A3 1C 04 08 32 14 05 00 00 00 00 F1 81 07 91 44 77 00 09 00 20 04 07 91 44 77 00
    09 00 21
  | invoke 1 - 2 mistyped
- an update that is mistyped and has a bad value
  | A1 1E 02 01 01 02 01 02 30 16 04 02 32 14 04 07 91 44 77 00 09 00 21 81 07 91 44 77 00 09 00 20
  | invoke 1 - 2 mistyped
- a purge
  | A1 1B 02 01 01 02 01 43 A3 13 04 08 32 14 05 00 00 00 00 F1 80 07 91 44 77 00 09 00 11
  | invoke 1 - 67 purge 234150000000001 447700900011
- a purge without a vlr-Number
  | A1 12 02 01 01 02 01 43 A3 0A 04 08 32 14 05 00 00 00 00 F1
  | invoke 1 - 67 purge 234150000000001 -
- a purge with the sgsn-Number first
  | A1 1A 02 01 01 02 01 43 A3 12 04 08 32 14 05 00 00 00 00 F1 81 02 91 44 80 02 91 44
  | invoke 1 - 67 purge 234150000000001 -
- a purge with a bad vlr-Number
  | A1 15 02 01 01 02 01 43 A3 0D 04 08 32 14 05 00 00 00 00 F1 80 01 91
  | invoke 1 - 67 bad value
- a purge without an imsi | A1 08 02 01 01 02 01 43 A3 00 | invoke 1 - 67 mistyped
- a route
  | A1 1D 02 01 01 02 01 2D 30 15 80 07 91 44 77 00 09 00 00 81 01 FF 82 07 91 44 77 00 09 99 99
  | invoke 1 - 45 route 447700900000
- a route with a priority of two octets
  | A1 1E 02 01 01 02 01 2D 30 16 80 07 91 44 77 00 09 00 00 81 02 FF FF 82 07 91 44 77 00 09 99 99
  | invoke 1 - 45 mistyped
- a route without a service centre
  | A1 14 02 01 01 02 01 2D 30 0C 80 07 91 44 77 00 09 00 00 81 01 FF
  | invoke 1 - 45 mistyped
- a route of no digits
  | A1 17 02 01 01 02 01 2D 30 0F 80 01 91 81 01 FF 82 07 91 44 77 00 09 99 99
  | invoke 1 - 45 bad value
- an Invoke without a parameter | A1 06 02 01 01 02 01 02 | invoke 1 - 2 none
- an Invoke of an operation that no peer may invoke
  | A1 24 02 01 01 02 01 03 30 1C 04 08 32 14 05 00 00 00 00 F1 81 07 91 44 77 00 09 00 20 04 07 91 44 77 00
    09 00 21
  | invoke 1 - 3 mistyped
- an Invoke with a global code
  | A1 26 02 01 01 06 03 2A 03 04 30 1C 04 08 32 14 05 00 00 00 00 F1 81 07 91 44 77 00 09 00 20 04 07 91 44
    77 00 09 00 21
  | invoke 1 - other mistyped
- an Invoke with a code of two octets | A1 07 02 01 01 02 02 00 02 | invoke 1 - other none
- an Invoke with the code in a longer length | A1 07 02 01 01 02 81 01 02 | invoke 1 - 2 none
- an Invoke with an empty code | A1 05 02 01 01 02 00 | bad 1 1
- an Invoke without a code | A1 03 02 01 01 | bad 1 1
- an Invoke with two parameters | A1 0A 02 01 01 02 01 02 05 00 05 00 | bad 1 1
- an Invoke with a linked id | A1 09 02 01 80 80 01 7F 02 01 02 | invoke -128 127 2 none
- an Invoke with a linked id of two octets | A1 0A 02 01 01 80 02 00 01 02 01 02 | bad 1 1
- an Invoke without an id | A1 06 80 01 01 02 01 02 | bad - 1
- an Invoke with an id of two octets | A1 07 02 02 00 01 02 01 02 | bad - 1
- a result with a global code | A2 0C 02 01 01 30 07 06 03 2A 03 04 05 00 | result 1
- a result with an empty global code | A2 07 02 01 01 30 02 06 00 | bad 1 1
- a result with a code alone | A2 08 02 01 01 30 03 02 01 02 | result 1
- a result with an empty sequence | A2 05 02 01 01 30 00 | bad 1 1
- a result with two sequences | A2 0D 02 01 01 30 03 02 01 02 30 03 02 01 02 | bad 1 1
- a result with a parameter without a sequence | A2 08 02 01 01 02 01 02 05 00 | bad 1 1
- a result that is not the last | A7 0A 02 01 01 30 05 06 03 2A 03 04 | not last 1
- a result without an id | A2 00 | bad - 1
- an error with a code | A3 08 02 01 01 02 01 22 05 00 | error 1 34
- an error with a global code | A3 08 02 01 01 06 03 2A 03 04 | error 1 other
- an error with a code of two octets | A3 07 02 01 01 02 02 00 22 | error 1 other
- an error without a code | A3 03 02 01 01 | bad 1 1
- a Reject of an Invoke | A4 06 02 01 01 81 01 01 | reject 1 invoke 1
- a Reject of a result | A4 06 02 01 01 82 01 00 | reject 1 result 0
- a Reject of an error | A4 06 02 01 01 83 01 02 | reject 1 error 2
- a Reject without an id | A4 05 05 00 80 01 02 | reject - general 2
- a Reject with a problem of two octets | A4 07 02 01 01 81 02 00 01 | ignored
- a Reject without a problem | A4 03 02 01 01 | ignored
- a Reject with an element behind | A4 08 02 01 01 81 01 01 05 00 | ignored
- a Reject with a NULL that is not empty | A4 06 05 01 00 80 01 02 | ignored
- another tag | A5 03 02 01 01 | bad - 0
- a primitive Invoke | 81 06 02 01 01 02 01 02 | bad - 0
- an element of another class | E1 03 02 01 01 | bad - 0
- several | A5 03 02 01 01 A4 03 02 01 01 A2 03 02 01 01 | bad - 0, ignored, result 1
";

/// Dialogue portions of a Begin from 00000001: the name, the octets, the verdict on the Begin.
const ASKING: &str = "
- version 1
  | 6B 1E 28 1C 06 07 00 11 86 05 01 01 01 A0 11 60 0F 80 02 07 80 A1 09 06 07 04 00 00 01 00 14 03
  | begin 00000001 04000001001403
- no version
  | 6B 1A 28 18 06 07 00 11 86 05 01 01 01 A0 0D 60 0B A1 09 06 07 04 00 00 01 00 14 03
  | begin 00000001 04000001001403
- a version of no octet
  | 6B 1C 28 1A 06 07 00 11 86 05 01 01 01 A0 0F 60 0D 80 00 A1 09 06 07 04 00 00 01 00 14 03
  | abort 00000001 3
- a version of one octet
  | 6B 1D 28 1B 06 07 00 11 86 05 01 01 01 A0 10 60 0E 80 01 07 A1 09 06 07 04 00 00 01 00 14 03
  | abort 00000001 3
- a version of three octets
  | 6B 1F 28 1D 06 07 00 11 86 05 01 01 01 A0 12 60 10 80 03 06 80 40 A1 09 06 07 04 00 00 01 00 14 03
  | begin 00000001 04000001001403
- a version with eight bits unused
  | 6B 1E 28 1C 06 07 00 11 86 05 01 01 01 A0 11 60 0F 80 02 08 80 A1 09 06 07 04 00 00 01 00 14 03
  | abort 00000001 3
- a version without the first bit
  | 6B 1E 28 1C 06 07 00 11 86 05 01 01 01 A0 11 60 0F 80 02 07 7F A1 09 06 07 04 00 00 01 00 14 03
  | abort 00000001 3
- two versions
  | 6B 22 28 20 06 07 00 11 86 05 01 01 01 A0 15 60 13 80 02 07 80 80 02 07 80 A1 09 06 07 04 00 00 01 00 14
    03
  | abort 00000001 3
- the version behind the name
  | 6B 1E 28 1C 06 07 00 11 86 05 01 01 01 A0 11 60 0F A1 09 06 07 04 00 00 01 00 14 03 80 02 07 80
  | abort 00000001 3
- a constructed version
  | 6B 20 28 1E 06 07 00 11 86 05 01 01 01 A0 13 60 11 A0 04 80 02 07 80 A1 09 06 07 04 00 00 01 00 14 03
  | abort 00000001 3
- no name | 6B 13 28 11 06 07 00 11 86 05 01 01 01 A0 06 60 04 80 02 07 80 | abort 00000001 3
- a name of no octet
  | 6B 17 28 15 06 07 00 11 86 05 01 01 01 A0 0A 60 08 80 02 07 80 A1 02 06 00
  | abort 00000001 3
- a name of one octet
  | 6B 18 28 16 06 07 00 11 86 05 01 01 01 A0 0B 60 09 80 02 07 80 A1 03 06 01 2A
  | begin 00000001 2A
- a name of 32 octets
  | 6B 37 28 35 06 07 00 11 86 05 01 01 01 A0 2A 60 28 80 02 07 80 A1 22 06 20 2A*32
  | begin 00000001 2A2A2A2A2A2A2A2A2A2A2A2A2A2A2A2A2A2A2A2A2A2A2A2A2A2A2A2A2A2A2A2A
- a name of 33 octets
  | 6B 38 28 36 06 07 00 11 86 05 01 01 01 A0 2B 60 29 80 02 07 80 A1 23 06 21 2A*33
  | abort 00000001 3
- an empty A1 | 6B 15 28 13 06 07 00 11 86 05 01 01 01 A0 08 60 06 80 02 07 80 A1 00 | abort 00000001 3
- a primitive A1
  | 6B 1C 28 1A 06 07 00 11 86 05 01 01 01 A0 0F 60 0D 80 02 07 80 81 07 04 00 00 01 00 14 03
  | abort 00000001 3
- two names in one
  | 6B 27 28 25 06 07 00 11 86 05 01 01 01 A0 1A 60 18 80 02 07 80 A1 12 06 07 04 00 00 01 00 14 03 06 07 04
    00 00 01 00 14 03
  | abort 00000001 3
- two names
  | 6B 29 28 27 06 07 00 11 86 05 01 01 01 A0 1C 60 1A 80 02 07 80 A1 09 06 07 04 00 00 01 00 14 03 A1 09 06
    07 04 00 00 01 00 14 03
  | abort 00000001 3
- a name of another type
  | 6B 1E 28 1C 06 07 00 11 86 05 01 01 01 A0 11 60 0F 80 02 07 80 A1 09 04 07 04 00 00 01 00 14 03
  | abort 00000001 3
- a constructed name
  | 6B 20 28 1E 06 07 00 11 86 05 01 01 01 A0 13 60 11 80 02 07 80 A1 0B 26 09 06 07 04 00 00 01 00 14 03
  | abort 00000001 3
- information of the user
  | 6B 22 28 20 06 07 00 11 86 05 01 01 01 A0 15 60 13 80 02 07 80 A1 09 06 07 04 00 00 01 00 14 03 BE 02 05
    00
  | begin 00000001 04000001001403
- empty information of the user
  | 6B 20 28 1E 06 07 00 11 86 05 01 01 01 A0 13 60 11 80 02 07 80 A1 09 06 07 04 00 00 01 00 14 03 BE 00
  | begin 00000001 04000001001403
- primitive information of the user
  | 6B 21 28 1F 06 07 00 11 86 05 01 01 01 A0 14 60 12 80 02 07 80 A1 09 06 07 04 00 00 01 00 14 03 9E 01 00
  | abort 00000001 3
- information of the user twice
  | 6B 22 28 20 06 07 00 11 86 05 01 01 01 A0 15 60 13 80 02 07 80 A1 09 06 07 04 00 00 01 00 14 03 BE 00 BE
    00
  | abort 00000001 3
- another element behind
  | 6B 20 28 1E 06 07 00 11 86 05 01 01 01 A0 13 60 11 80 02 07 80 A1 09 06 07 04 00 00 01 00 14 03 05 00
  | abort 00000001 3
- a primitive AARQ
  | 6B 1E 28 1C 06 07 00 11 86 05 01 01 01 A0 11 40 0F 80 02 07 80 A1 09 06 07 04 00 00 01 00 14 03
  | abort 00000001 3
- an ABRT | 6B 12 28 10 06 07 00 11 86 05 01 01 01 A0 05 64 03 80 01 00 | abort 00000001 3
- no APDU | 6B 0D 28 0B 06 07 00 11 86 05 01 01 01 A0 00 | abort 00000001 3
- two APDUs
  | 6B 2F 28 2D 06 07 00 11 86 05 01 01 01 A0 22 60 0F 80 02 07 80 A1 09 06 07 04 00 00 01 00 14 03 60 0F 80
    02 07 80 A1 09 06 07 04 00 00 01 00 14 03
  | abort 00000001 3
- another abstract syntax
  | 6B 1E 28 1C 06 07 00 11 86 05 01 02 01 A0 11 60 0F 80 02 07 80 A1 09 06 07 04 00 00 01 00 14 03
  | abort 00000001 3
- an abstract syntax that is longer
  | 6B 1F 28 1D 06 08 00 11 86 05 01 01 01 00 A0 11 60 0F 80 02 07 80 A1 09 06 07 04 00 00 01 00 14 03
  | abort 00000001 3
- no abstract syntax
  | 6B 15 28 13 A0 11 60 0F 80 02 07 80 A1 09 06 07 04 00 00 01 00 14 03
  | abort 00000001 3
- no encoding | 6B 0B 28 09 06 07 00 11 86 05 01 01 01 | abort 00000001 3
- another encoding
  | 6B 1E 28 1C 06 07 00 11 86 05 01 01 01 A1 11 60 0F 80 02 07 80 A1 09 06 07 04 00 00 01 00 14 03
  | abort 00000001 3
- an element behind the encoding
  | 6B 20 28 1E 06 07 00 11 86 05 01 01 01 A0 11 60 0F 80 02 07 80 A1 09 06 07 04 00 00 01 00 14 03 05 00
  | abort 00000001 3
- an empty EXTERNAL | 6B 02 28 00 | abort 00000001 3
- a primitive EXTERNAL | 6B 03 08 01 00 | abort 00000001 3
- no EXTERNAL | 6B 11 60 0F 80 02 07 80 A1 09 06 07 04 00 00 01 00 14 03 | abort 00000001 3
- two EXTERNALs
  | 6B 3C 28 1C 06 07 00 11 86 05 01 01 01 A0 11 60 0F 80 02 07 80 A1 09 06 07 04 00 00 01 00 14 03 28 1C 06
    07 00 11 86 05 01 01 01 A0 11 60 0F 80 02 07 80 A1 09 06 07 04 00 00 01 00 14 03
  | abort 00000001 3
";

/// Dialogue portions of a Continue from 00000001 to 01000007.
const ANSWERING: &str = "
- accepted
  | 6B 2A 28 28 06 07 00 11 86 05 01 01 01 A0 1D 61 1B 80 02 07 80 A1 09 06 07 04 00 00 01 00 14 03 A2 03 02
    01 00 A3 05 A1 03 02 01 00
  | continue 00000001 01000007 04000001001403/0/user 0
- without a version
  | 6B 26 28 24 06 07 00 11 86 05 01 01 01 A0 19 61 17 A1 09 06 07 04 00 00 01 00 14 03 A2 03 02 01 00 A3 05
    A1 03 02 01 00
  | continue 00000001 01000007 04000001001403/0/user 0
- refused by the user
  | 6B 2A 28 28 06 07 00 11 86 05 01 01 01 A0 1D 61 1B 80 02 07 80 A1 09 06 07 04 00 00 01 00 14 03 A2 03 02
    01 01 A3 05 A1 03 02 01 02
  | continue 00000001 01000007 04000001001403/1/user 2
- refused by the provider
  | 6B 2A 28 28 06 07 00 11 86 05 01 01 01 A0 1D 61 1B 80 02 07 80 A1 09 06 07 04 00 00 01 00 14 03 A2 03 02
    01 01 A3 05 A2 03 02 01 02
  | continue 00000001 01000007 04000001001403/1/provider 2
- any result and any diagnostic
  | 6B 2A 28 28 06 07 00 11 86 05 01 01 01 A0 1D 61 1B 80 02 07 80 A1 09 06 07 04 00 00 01 00 14 03 A2 03 02
    01 FF A3 05 A2 03 02 01 80
  | continue 00000001 01000007 04000001001403/255/provider 128
- a name of 32 octets
  | 6B 43 28 41 06 07 00 11 86 05 01 01 01 A0 36 61 34 80 02 07 80 A1 22 06 20 2A*32 A2 03 02 01 00 A3 05 A1
    03 02 01 00
  | continue 00000001 01000007 2A2A2A2A2A2A2A2A2A2A2A2A2A2A2A2A2A2A2A2A2A2A2A2A2A2A2A2A2A2A2A2A/0/user 0
- a name of 33 octets
  | 6B 44 28 42 06 07 00 11 86 05 01 01 01 A0 37 61 35 80 02 07 80 A1 23 06 21 2A*33 A2 03 02 01 00 A3 05 A1
    03 02 01 00
  | abort 00000001 3
- information of the user
  | 6B 2C 28 2A 06 07 00 11 86 05 01 01 01 A0 1F 61 1D 80 02 07 80 A1 09 06 07 04 00 00 01 00 14 03 A2 03 02
    01 00 A3 05 A1 03 02 01 00 BE 00
  | continue 00000001 01000007 04000001001403/0/user 0
- another element behind
  | 6B 2C 28 2A 06 07 00 11 86 05 01 01 01 A0 1F 61 1D 80 02 07 80 A1 09 06 07 04 00 00 01 00 14 03 A2 03 02
    01 00 A3 05 A1 03 02 01 00 05 00
  | abort 00000001 3
- a version of one octet
  | 6B 29 28 27 06 07 00 11 86 05 01 01 01 A0 1C 61 1A 80 01 07 A1 09 06 07 04 00 00 01 00 14 03 A2 03 02 01
    00 A3 05 A1 03 02 01 00
  | abort 00000001 3
- no name
  | 6B 1F 28 1D 06 07 00 11 86 05 01 01 01 A0 12 61 10 80 02 07 80 A2 03 02 01 00 A3 05 A1 03 02 01 00
  | abort 00000001 3
- no result
  | 6B 25 28 23 06 07 00 11 86 05 01 01 01 A0 18 61 16 80 02 07 80 A1 09 06 07 04 00 00 01 00 14 03 A3 05 A1
    03 02 01 00
  | abort 00000001 3
- a result of two octets
  | 6B 2B 28 29 06 07 00 11 86 05 01 01 01 A0 1E 61 1C 80 02 07 80 A1 09 06 07 04 00 00 01 00 14 03 A2 04 02
    02 00 00 A3 05 A1 03 02 01 00
  | abort 00000001 3
- a result of no octet
  | 6B 29 28 27 06 07 00 11 86 05 01 01 01 A0 1C 61 1A 80 02 07 80 A1 09 06 07 04 00 00 01 00 14 03 A2 02 02
    00 A3 05 A1 03 02 01 00
  | abort 00000001 3
- two results
  | 6B 2D 28 2B 06 07 00 11 86 05 01 01 01 A0 20 61 1E 80 02 07 80 A1 09 06 07 04 00 00 01 00 14 03 A2 06 02
    01 00 02 01 00 A3 05 A1 03 02 01 00
  | abort 00000001 3
- a primitive result
  | 6B 2A 28 28 06 07 00 11 86 05 01 01 01 A0 1D 61 1B 80 02 07 80 A1 09 06 07 04 00 00 01 00 14 03 82 03 02
    01 00 A3 05 A1 03 02 01 00
  | abort 00000001 3
- no diagnostic
  | 6B 23 28 21 06 07 00 11 86 05 01 01 01 A0 16 61 14 80 02 07 80 A1 09 06 07 04 00 00 01 00 14 03 A2 03 02
    01 00
  | abort 00000001 3
- the diagnostic before the result
  | 6B 2A 28 28 06 07 00 11 86 05 01 01 01 A0 1D 61 1B 80 02 07 80 A1 09 06 07 04 00 00 01 00 14 03 A3 05 A1
    03 02 01 00 A2 03 02 01 00
  | abort 00000001 3
- an empty diagnostic
  | 6B 25 28 23 06 07 00 11 86 05 01 01 01 A0 18 61 16 80 02 07 80 A1 09 06 07 04 00 00 01 00 14 03 A2 03 02
    01 00 A3 00
  | abort 00000001 3
- diagnostics of both
  | 6B 2F 28 2D 06 07 00 11 86 05 01 01 01 A0 22 61 20 80 02 07 80 A1 09 06 07 04 00 00 01 00 14 03 A2 03 02
    01 00 A3 0A A1 03 02 01 00 A2 03 02 01 00
  | abort 00000001 3
- a diagnostic of neither
  | 6B 2A 28 28 06 07 00 11 86 05 01 01 01 A0 1D 61 1B 80 02 07 80 A1 09 06 07 04 00 00 01 00 14 03 A2 03 02
    01 00 A3 05 A4 03 02 01 00
  | abort 00000001 3
- a diagnostic of two octets
  | 6B 2B 28 29 06 07 00 11 86 05 01 01 01 A0 1E 61 1C 80 02 07 80 A1 09 06 07 04 00 00 01 00 14 03 A2 03 02
    01 00 A3 06 A1 04 02 02 00 00
  | abort 00000001 3
";

/// The verdict on a frame with this message's tag and `front` before the octets, shorter than 128 octets in
/// all.
fn verdict_behind(alloc: Global, tag: &str, front: &str, text: &str) -> Result<String, Fail> {
    let length = octets(alloc, front)?
        .len()
        .saturating_add(octets(alloc, text)?.len());
    let frame = format!(in alloc; "{tag} {length:02X} {front} {text}")?;
    verdict_on(alloc, &frame)
}

#[test]
fn components(rt: HostRuntime) -> Result<(), Fail> {
    check(&rt, COMPONENTS, |alloc, portion| {
        let length = octets(alloc, portion)?.len();
        let front = format!(in alloc; "48 04 00 00 00 01 6C {length:02X}")?;
        let verdict = verdict_behind(alloc, "62", &front, portion)?;
        let heard = verdict
            .strip_prefix("begin 00000001 -, ")
            .ok_or("no Begin")?;
        Ok(String::from_str(alloc, heard)?)
    })
}

#[test]
fn asking(rt: HostRuntime) -> Result<(), Fail> {
    check(&rt, ASKING, |alloc, portion| {
        verdict_behind(alloc, "62", "48 04 00 00 00 01", portion)
    })
}

#[test]
fn answering(rt: HostRuntime) -> Result<(), Fail> {
    check(&rt, ANSWERING, |alloc, portion| {
        verdict_behind(alloc, "65", "48 04 00 00 00 01 49 04 01 00 00 07", portion)
    })
}
