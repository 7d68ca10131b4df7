//! Copies bytes to the front of a buffer. A few bytes are copied as one piece of a fixed size, and
//! then any bytes follow them: no call and no loop depends on the number of bytes.
ghost use Rattle.std.specs.Prelude.{◌≡◌, ◌≤◌, ◌+◌, ◌*◌, ◌++◌, length, take, drop, replicate, IsTrue};

/// Copies a chunk of n bytes, if both have one and these `len` are in it.
#[inline(always)]
fn copy_chunk<const N: usize>(len: usize, from: &[u8], to: &mut [u8]) -> bool
    requires { N ≤ 32 }
    ensures copied { IsTrue result → take len to.new ≡ take len from.now }
    ensures kept { length to.new ≡ length to.old }
{
    if len > N {
        return false;
    }
    let Some(from) = from.first_chunk::<N>() else {
        return false;
    };
    let Some(to) = to.first_chunk_mut::<N>() else {
        return false;
    };
    *to = *from;
    true
}

/// Clears a chunk of n bytes, if there is one and these `len` are in it.
#[inline(always)]
fn clear_chunk<const N: usize>(len: usize, to: &mut [u8]) -> bool
    requires { N ≤ 32 }
    ensures cleared { IsTrue result → take len to.new ≡ replicate len 0 }
    ensures kept { length to.new ≡ length to.old }
{
    if len > N {
        return false;
    }
    let Some(to) = to.first_chunk_mut::<N>() else {
        return false;
    };
    let zeros = [0; N];
    *to = zeros;
    true
}

/// Copies n bytes by a call, which keeps the code around short runs small.
#[inline(never)]
fn copy_long(len: usize, from: &[u8], to: &mut [u8])
    requires here { len ≤ length from.now }
    requires room { len ≤ length to.old }
    ensures copied { take len to.new ≡ take len from.now }
    ensures kept { length to.new ≡ length to.old }
{
    to[..len].copy_from_slice(&from[..len]);
}

/// Clears n bytes by a call.
#[inline(never)]
fn clear_long(len: usize, to: &mut [u8])
    requires { len ≤ length to.old }
    ensures cleared { take len to.new ≡ replicate len 0 }
    ensures kept { length to.new ≡ length to.old }
{
    to[..len].fill(0);
}

/// Copies n bytes.
#[inline(always)]
pub(crate) fn copy_front(len: usize, from: &[u8], to: &mut [u8])
    requires here { len ≤ length from.now }
    requires room { len ≤ length to.old }
    ensures copied { take len to.new ≡ take len from.now }
    ensures kept { length to.new ≡ length to.old }
{
    let is_copied = copy_chunk::<32>(len, from, to)
        || copy_chunk::<16>(len, from, to)
        || copy_chunk::<8>(len, from, to);
    if !is_copied {
        copy_long(len, from, to);
    }
}

/// Clears n bytes, by a call.
#[inline(never)]
fn clear_some(len: usize, to: &mut [u8])
    requires { len ≤ length to.old }
    ensures cleared { take len to.new ≡ replicate len 0 }
    ensures kept { length to.new ≡ length to.old }
{
    let is_cleared = clear_chunk::<32>(len, to)
        || clear_chunk::<16>(len, to)
        || clear_chunk::<8>(len, to);
    if !is_cleared {
        clear_long(len, to);
    }
}

/// Clears n bytes, which are mostly 0.
#[inline(always)]
pub(crate) fn clear_front(len: usize, to: &mut [u8])
    requires { len ≤ length to.old }
    ensures cleared { take len to.new ≡ replicate len 0 }
    ensures kept { length to.new ≡ length to.old }
{
    if len > 0 {
        clear_some(len, to);
    }
}

/// Copies the eight bytes at the front. By way of an array it takes one load and one store, whether
/// or not both lie apart.
#[inline(always)]
pub(crate) fn copy_first(from: &[u8], to: &mut [u8])
    requires here { 8 ≤ length from.now }
    requires room { 8 ≤ length to.old }
    ensures { to.new ≡ take 8 from.now ++ drop 8 to.old }
{
    let mut word = [0u8; 8];
    word.copy_from_slice(&from[..8]);
    to[..8].copy_from_slice(&word);
}

/// Copies the word after n bytes, which are equal already.
#[inline(always)]
fn copy_word(at: usize, from: &[u8], to: &mut [u8])
    requires here { at + 8 ≤ length from.now }
    requires room { at + 8 ≤ length to.old }
    requires same { take at to.old ≡ take at from.now }
    ensures copied { take (at + 8) to.new ≡ take (at + 8) from.now }
    ensures kept { length to.new ≡ length to.old }
{
    copy_first(&from[at..], &mut to[at..]);
}

/// Copies a word and n words after it. Up to three words after it are copied without a branch: if
/// there are fewer, the last is copied again, so that no room after it is needed.
#[inline(always)]
pub(crate) fn copy_words(behind: usize, from: &[u8], to: &mut [u8])
    requires here { 8 * behind + 8 ≤ length from.now }
    requires room { 8 * behind + 8 ≤ length to.old }
    ensures copied { take (8 * behind + 8) to.new ≡ take (8 * behind + 8) from.now }
    ensures kept { length to.new ≡ length to.old }
{
    if behind > 3 {
        copy_long(8 * behind + 8, from, to);
        return;
    }
    copy_word(0, from, to);
    copy_word(8 * behind.min(1), from, to);
    copy_word(8 * behind.min(2), from, to);
    copy_word(8 * behind, from, to);
}
