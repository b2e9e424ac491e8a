//! The place of every child of every message (ITU-T Q.773, 3.1): the right child, a missing one, one too
//! many.

use crate::tables::check;
use crate::told::verdict_on;
use std::test::Fail;

/// A Begin: its name, its octets, the verdict. `DQ` is the portion that asks for the context of
/// shortMsgGateway, `DA` the one that accepts it, and `REJECT*17` are 17 Rejects.
const BEGINS: &str = "
- no child | 62 00 | discarded
- another child in the place of the id | 62 02 05 00 | discarded
- the destination id in its place | 62 06 49 04 01 00 00 07 | discarded
- a constructed element in its place | 62 08 68 06 04 04 00 00 00 01 | discarded
- the id behind the portion | 62 26 DQ 48 04 00 00 00 01 | discarded
- an id of no octet | 62 02 48 00 | discarded
- an id of five octets | 62 07 48 05 00 00 00 00 01 | discarded
- an id of one octet | 62 03 48 01 07 | begin 07 -
- an id of two octets | 62 04 48 02 00 07 | begin 0007 -
- an id of three octets | 62 05 48 03 00 00 07 | begin 000007 -
- an id of four octets | 62 06 48 04 00 00 00 01 | begin 00000001 -
- the id twice | 62 0C 48 04 00 00 00 01 48 04 00 00 00 01 | abort 00000001 3
- a destination id | 62 0C 48 04 00 00 00 01 49 04 01 00 00 07 | abort 00000001 3
- a dialogue portion | 62 26 48 04 00 00 00 01 DQ | begin 00000001 04000001001403
- both portions | 62 2D 48 04 00 00 00 01 DQ 6C 05 A2 03 02 01 01 | begin 00000001 04000001001403, result 1
- components alone | 62 0D 48 04 00 00 00 01 6C 05 A2 03 02 01 01 | begin 00000001 -, result 1
- the components first | 62 2D 48 04 00 00 00 01 6C 05 A2 03 02 01 01 DQ | abort 00000001 3
- two dialogue portions | 62 46 48 04 00 00 00 01 DQ DQ | abort 00000001 3
- two component portions
  | 62 14 48 04 00 00 00 01 6C 05 A2 03 02 01 01 6C 05 A2 03 02 01 01
  | abort 00000001 3
- an element behind | 62 2F 48 04 00 00 00 01 DQ 6C 05 A2 03 02 01 01 05 00 | abort 00000001 3
- an element between | 62 28 48 04 00 00 00 01 05 00 DQ | abort 00000001 3
- a primitive dialogue portion | 62 09 48 04 00 00 00 01 4B 01 00 | abort 00000001 3
- a primitive component portion | 62 09 48 04 00 00 00 01 4C 01 00 | abort 00000001 3
- an empty dialogue portion | 62 08 48 04 00 00 00 01 6B 00 | abort 00000001 3
- an empty component portion | 62 08 48 04 00 00 00 01 6C 00 | begin 00000001 -
- an empty component portion behind the dialogue portion
  | 62 28 48 04 00 00 00 01 DQ 6C 00
  | begin 00000001 04000001001403
- the accepting portion | 62 32 48 04 00 00 00 01 DA | abort 00000001 3
- a P-Abort cause | 62 09 48 04 00 00 00 01 4A 01 00 | abort 00000001 3
- a primitive Begin | 42 06 48 04 00 00 00 01 | discarded
- an octet behind | 62 06 48 04 00 00 00 01 00 | discarded
- an octet too few | 62 06 48 04 00 00 00 | discarded
- a length that is one too great | 62 07 48 04 00 00 00 01 | discarded
- a length in two octets | 62 81 06 48 04 00 00 00 01 | begin 00000001 -
- a length in four octets | 62 84 00 00 00 06 48 04 00 00 00 01 | begin 00000001 -
- a length in five octets | 62 85 00 00 00 00 06 48 04 00 00 00 01 | discarded
- the indefinite form | 62 80 48 04 00 00 00 01 00 00 | begin 00000001 -
- an indefinite form without an end | 62 80 48 04 00 00 00 01 | discarded
- the tag in two octets | 7F 02 06 48 04 00 00 00 01 | discarded
- seventeen components | 62 81 9F 48 04 00 00 00 01 DQ 6C 77 REJECT*17 | abort 00000001 4
- seventeen components and the accepting portion
  | 62 81 AB 48 04 00 00 00 01 DA 6C 77 REJECT*17
  | abort 00000001 3
- seventeen components and an element behind
  | 62 81 A1 48 04 00 00 00 01 DQ 6C 77 REJECT*17 05 00
  | abort 00000001 3
";

/// A Continue.
const CONTINUES: &str = "
- no child | 65 00 | discarded
- the destination id first | 65 0C 49 04 01 00 00 07 48 04 00 00 00 01 | discarded
- an originating id of no octet | 65 08 48 00 49 04 01 00 00 07 | discarded
- an originating id of five octets | 65 0D 48 05 00 00 00 00 01 49 04 01 00 00 07 | discarded
- no destination id | 65 06 48 04 00 00 00 01 | abort 00000001 2
- the originating id twice | 65 0C 48 04 00 00 00 01 48 04 00 00 00 01 | abort 00000001 2
- another child in the place of the destination id
  | 65 0E 48 04 00 00 00 01 05 00 49 04 01 00 00 07
  | abort 00000001 2
- a constructed element in its place | 65 0E 48 04 00 00 00 01 69 06 04 04 01 00 00 07 | abort 00000001 2
- a portion in its place | 65 38 48 04 00 00 00 01 DA 49 04 01 00 00 07 | abort 00000001 2
- a destination id of no octet | 65 08 48 04 00 00 00 01 49 00 | abort 00000001 2
- a destination id of five octets | 65 0D 48 04 00 00 00 01 49 05 01 00 00 00 07 | abort 00000001 2
- ids of one octet | 65 06 48 01 05 49 01 07 | continue 05 07 -
- ids of two and three octets | 65 09 48 02 00 05 49 03 00 00 07 | continue 0005 000007 -
- ids of four octets | 65 0C 48 04 00 00 00 01 49 04 01 00 00 07 | continue 00000001 01000007 -
- the destination id twice | 65 12 48 04 00 00 00 01 49 04 01 00 00 07 49 04 01 00 00 07 | abort 00000001 3
- the accepting portion
  | 65 38 48 04 00 00 00 01 49 04 01 00 00 07 DA
  | continue 00000001 01000007 04000001001403/0/user 0
- both portions
  | 65 3F 48 04 00 00 00 01 49 04 01 00 00 07 DA 6C 05 A2 03 02 01 01
  | continue 00000001 01000007 04000001001403/0/user 0, result 1
- components alone
  | 65 13 48 04 00 00 00 01 49 04 01 00 00 07 6C 05 A2 03 02 01 01
  | continue 00000001 01000007 -, result 1
- an empty component portion
  | 65 0E 48 04 00 00 00 01 49 04 01 00 00 07 6C 00
  | continue 00000001 01000007 -
- the asking portion | 65 2C 48 04 00 00 00 01 49 04 01 00 00 07 DQ | abort 00000001 3
- an empty dialogue portion | 65 0E 48 04 00 00 00 01 49 04 01 00 00 07 6B 00 | abort 00000001 3
- two dialogue portions | 65 64 48 04 00 00 00 01 49 04 01 00 00 07 DA DA | abort 00000001 3
- two component portions
  | 65 1A 48 04 00 00 00 01 49 04 01 00 00 07 6C 05 A2 03 02 01 01 6C 05 A2 03 02 01 01
  | abort 00000001 3
- the components first
  | 65 3F 48 04 00 00 00 01 49 04 01 00 00 07 6C 05 A2 03 02 01 01 DA
  | abort 00000001 3
- an element behind
  | 65 15 48 04 00 00 00 01 49 04 01 00 00 07 6C 05 A2 03 02 01 01 05 00
  | abort 00000001 3
- a primitive component portion | 65 0F 48 04 00 00 00 01 49 04 01 00 00 07 4C 01 00 | abort 00000001 3
- a primitive Continue | 45 0C 48 04 00 00 00 01 49 04 01 00 00 07 | discarded
- seventeen components | 65 81 85 48 04 00 00 00 01 49 04 01 00 00 07 6C 77 REJECT*17 | abort 00000001 4
- seventeen components and the asking portion
  | 65 81 A5 48 04 00 00 00 01 49 04 01 00 00 07 DQ 6C 77 REJECT*17
  | abort 00000001 3
";

/// An End.
const ENDS: &str = "
- no child | 64 00 | discarded
- the originating id | 64 06 48 04 00 00 00 01 | discarded
- the originating id first | 64 0C 48 04 00 00 00 01 49 04 01 00 00 07 | discarded
- an id of no octet | 64 02 49 00 | discarded
- an id of five octets | 64 07 49 05 01 00 00 00 07 | discarded
- an id of one octet | 64 03 49 01 07 | end 07 -
- an id of four octets | 64 06 49 04 01 00 00 07 | end 01000007 -
- the id twice | 64 0C 49 04 01 00 00 07 49 04 01 00 00 07 | discarded
- the accepting portion | 64 32 49 04 01 00 00 07 DA | end 01000007 04000001001403/0/user 0
- both portions
  | 64 39 49 04 01 00 00 07 DA 6C 05 A2 03 02 01 01
  | end 01000007 04000001001403/0/user 0, result 1
- components alone | 64 0D 49 04 01 00 00 07 6C 05 A2 03 02 01 01 | end 01000007 -, result 1
- an empty component portion | 64 08 49 04 01 00 00 07 6C 00 | end 01000007 -
- the asking portion | 64 26 49 04 01 00 00 07 DQ | discarded
- an empty dialogue portion | 64 08 49 04 01 00 00 07 6B 00 | discarded
- the components first | 64 39 49 04 01 00 00 07 6C 05 A2 03 02 01 01 DA | discarded
- two component portions | 64 14 49 04 01 00 00 07 6C 05 A2 03 02 01 01 6C 05 A2 03 02 01 01 | discarded
- an element behind | 64 0F 49 04 01 00 00 07 6C 05 A2 03 02 01 01 05 00 | discarded
- a primitive component portion | 64 09 49 04 01 00 00 07 4C 01 00 | discarded
- a primitive End | 44 06 49 04 01 00 00 07 | discarded
- seventeen components | 64 7F 49 04 01 00 00 07 6C 77 REJECT*17 | discarded
";

/// An Abort.
const ABORTS: &str = "
- no child | 67 00 | discarded
- the originating id | 67 06 48 04 00 00 00 01 | discarded
- an id of no octet | 67 02 49 00 | discarded
- an id of five octets | 67 07 49 05 01 00 00 00 07 | discarded
- an id of one octet | 67 03 49 01 07 | aborted 07
- an id of four octets | 67 06 49 04 01 00 00 07 | aborted 01000007
- the id twice | 67 0C 49 04 01 00 00 07 49 04 01 00 00 07 | discarded
- a cause | 67 09 49 04 01 00 00 07 4A 01 00 | aborted 01000007
- a cause that is none | 67 0B 49 04 01 00 00 07 4A 03 01 02 03 | aborted 01000007
- a constructed cause | 67 0B 49 04 01 00 00 07 6A 03 4A 01 00 | discarded
- a dialogue portion | 67 32 49 04 01 00 00 07 DA | aborted 01000007
- an empty dialogue portion | 67 08 49 04 01 00 00 07 6B 00 | aborted 01000007
- a primitive dialogue portion | 67 09 49 04 01 00 00 07 4B 01 00 | discarded
- a cause and a dialogue portion | 67 35 49 04 01 00 00 07 4A 01 00 DA | discarded
- two causes | 67 0C 49 04 01 00 00 07 4A 01 00 4A 01 00 | discarded
- a component portion | 67 0D 49 04 01 00 00 07 6C 05 A2 03 02 01 01 | discarded
- a primitive Abort | 47 06 49 04 01 00 00 07 | discarded
";

/// Frames that are not read as a message.
const OTHERS: &str = "
- no octet |  | discarded
- a Unidirectional | 61 07 6C 05 A2 03 02 01 01 | discarded
- a Unidirectional with an originating id | 61 06 48 04 00 00 00 01 | discarded
- a primitive Unidirectional | 41 06 48 04 00 00 00 01 | discarded
- another message | 63 06 48 04 00 00 00 01 | abort 00000001 0
- another message with anything behind the id | 63 05 48 01 07 05 00 | abort 07 0
- another message without an id | 63 00 | discarded
- another message with a destination id | 63 06 49 04 01 00 00 07 | discarded
- another message with an id of no octet | 63 02 48 00 | discarded
- another message with an id of five octets | 63 07 48 05 00 00 00 00 01 | discarded
- a private element | E2 06 48 04 00 00 00 01 | abort 00000001 0
- a SEQUENCE | 30 06 48 04 00 00 00 01 | abort 00000001 0
- a number in two octets | 7F 22 06 48 04 00 00 00 01 | abort 00000001 0
- a primitive element | 04 06 48 04 00 00 00 01 | discarded
- two elements | 05 00 05 00 | discarded
- an end mark | 00 00 | discarded
";

#[test]
fn begins(rt: HostRuntime) -> Result<(), Fail> {
    check(&rt, BEGINS, verdict_on)
}

#[test]
fn continues(rt: HostRuntime) -> Result<(), Fail> {
    check(&rt, CONTINUES, verdict_on)
}

#[test]
fn ends(rt: HostRuntime) -> Result<(), Fail> {
    check(&rt, ENDS, verdict_on)
}

#[test]
fn aborts(rt: HostRuntime) -> Result<(), Fail> {
    check(&rt, ABORTS, verdict_on)
}

#[test]
fn others(rt: HostRuntime) -> Result<(), Fail> {
    check(&rt, OTHERS, verdict_on)
}
