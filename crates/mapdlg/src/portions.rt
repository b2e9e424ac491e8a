//! The dialogue portions that request a context and that accept it.
//!
//! Nothing in them but the context's name varies, so their contents are spelled here, and only copied when a message is sent.

ghost use Rattle.std.specs.Prelude.{◌≡◌, IfOk};
ghost use Rattle.x690.specs.Spelling.{enc};
ghost use Rattle.x690.specs.Tree.{Primitive};
ghost use Rattle.frames.specs.SentTrees.{accepting, asking};
ghost use Rattle.berwrite.specs.OwnTrees.{own};
ghost use Rattle.mapctx.specs.Seen.{context};

use berwrite::{Memory, OwnTree};
use bumpalo::Bump;
use frames::tags::DIALOGUE_PORTION;
use mapctx::{Context, name_of};

/// The contents of the dialogue portion that requests the context: an AARQ of version 1 with the context's name.
pub fn request_contents(of: Context) -> [u8; 30]
    ensures { enc (Primitive DIALOGUE_PORTION result) ≡ enc (asking (context of)) }
{
    let [a, b, c, d, e, requested, version] = name_of(of);
    [
        // an EXTERNAL with the identifier of dialogue portions (Q.773, dialogue-as-id)
        0x28, 0x1c, 0x06, 0x07, 0x00, 0x11, 0x86, 0x05, 0x01, 0x01, 0x01,
        // the AARQ, its version
        0xa0, 0x11, 0x60, 0x0f, 0x80, 0x02, 0x07, 0x80,
        // the name
        0xa1, 0x09, 0x06, 0x07, a, b, c, d, e, requested, version,
    ]
}

/// The dialogue portion that requests the context: `6B`, and in it these contents. A Begin carries it.
pub fn first_request<'a>(bump: &'a Bump, of: Context) -> Result<OwnTree<'a>, Memory>
    ensures { IfOk result (λ portion. enc (own portion) ≡ enc (asking (context of))) }
{
    OwnTree::primitive(bump, DIALOGUE_PORTION, &request_contents(of))
}

/// The contents of the dialogue portion that accepts the context: an AARE of version 1 with the context's name, the result
/// accepted and no diagnostic of the user.
pub fn answer_contents(of: Context) -> [u8; 42]
    ensures { enc (Primitive DIALOGUE_PORTION result) ≡ enc (accepting (context of)) }
{
    let [a, b, c, d, e, accepted, version] = name_of(of);
    [
        // an EXTERNAL with the identifier of dialogue portions (Q.773, dialogue-as-id)
        0x28, 0x28, 0x06, 0x07, 0x00, 0x11, 0x86, 0x05, 0x01, 0x01, 0x01,
        // the AARE, its version
        0xa0, 0x1d, 0x61, 0x1b, 0x80, 0x02, 0x07, 0x80,
        // the name
        0xa1, 0x09, 0x06, 0x07, a, b, c, d, e, accepted, version,
        // the result, the diagnostic
        0xa2, 0x03, 0x02, 0x01, 0x00, 0xa3, 0x05, 0xa1, 0x03, 0x02, 0x01, 0x00,
    ]
}

/// The dialogue portion that accepts the context: `6B`, and in it these contents. The first message that answers a Begin carries
/// it, and no other does.
pub fn first_answer<'a>(bump: &'a Bump, of: Context) -> Result<OwnTree<'a>, Memory>
    ensures { IfOk result (λ portion. enc (own portion) ≡ enc (accepting (context of))) }
{
    OwnTree::primitive(bump, DIALOGUE_PORTION, &answer_contents(of))
}
