//! A mark for each entry of sixteen journals, in a table that does not allocate: a word for each position, and in it a bit for
//! each shard.

ghost use Rattle.std.specs.Prelude.{◌≡◌, ◌≢◌, ◌+◌, ◌<◌, ◌↔◌, ◌==◌, ◌&&◌, ℕ, IsTrue, cond, length};
ghost use Rattle.std.specs.Int.{bit_at};
ghost use Rattle.receipts.specs.Marks.{mark_at};

/// The number of shards for which a word has marks.
pub(crate) const MAX_SHARDS: usize = 16;

fn with_bit(word: u16, bit: usize) -> u16
    requires { bit < 16 }
    ensures set { bit_at result bit ≡ 1 }
    ensures others { (i : ℕ) → i ≢ bit → bit_at result i ≡ bit_at word i }
{
    word | (1 << bit)
}

fn has_bit(word: u16, bit: usize) -> bool
    requires { bit < 16 }
    ensures { IsTrue result ↔ (bit_at word bit ≡ 1) }
{
    word & (1 << bit) != 0
}

/// Whether the entry is marked.
pub(crate) fn is_marked(words: &[u16], shard: usize, position: usize) -> bool
    requires shard { shard < 16 }
    requires position { position < length words.now }
    ensures { IsTrue result ↔ (mark_at words.now shard position ≡ 1) }
{
    has_bit(words[position], shard)
}

/// Marks an entry. False if it is marked already, or if the table ends before its position.
pub(crate) fn mark(words: &mut [u16], shard: usize, position: usize) -> bool
    requires { shard < 16 }
    ensures { IsTrue result → (s k : ℕ) → mark_at words.new s k
        ≡ mark_at words.old s k + cond ((shard == s) && (position == k)) 1 0 }
{
    if position >= words.len() || is_marked(words, shard, position) {
        return false;
    }
    words[position] = with_bit(words[position], shard);
    true
}
