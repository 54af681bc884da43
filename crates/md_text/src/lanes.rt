//! Finds runs of bytes that pass a test, several bytes at once.

ghost use Rattle.std.specs.Prelude.{◌≡◌, ◌+◌, ◌<◌, ◌≤◌, ◌==◌, ℕ, Bool, length, drop, min};
ghost use Rattle.std.specs.Prelude.{if◌then◌else◌};
ghost use Rattle.std.specs.Int.{w64, trailing_zeros};
ghost use Rattle.std.specs.List.{prefix_len};

/// The number of bytes that one step reads.
const BLOCK_SIZE: usize = 16;

/// Block size for texts shorter than `BLOCK_SIZE`.
const HALF_BLOCK: usize = 8;

/// A test of a byte.
pub(crate) trait ByteTest: Copy {
    ghost passes: { Self → ℕ → Bool };

    /// Whether a byte passes.
    fn is_passed(self, byte: u8) -> bool
        ensures { result ≡ passes self byte };
}

/// The same test for `N` bytes at once.
pub(crate) trait LaneTest<const N: usize>: ByteTest {
    /// Among the `N` bytes from an index, the number before the first that fails.
    fn run_in(self, bytes: &[u8], at: usize) -> usize
        requires { (N ≤ 64) × (at + N ≤ length bytes.now) }
        ensures { result ≡ min N (prefix_len (Self.passes self) (drop at bytes.now)) };
}

/// How many bytes come before the first that fails.
#[inline(never)]
pub(crate) fn run_length<T: LaneTest<BLOCK_SIZE> + LaneTest<HALF_BLOCK>>(
    test: T,
    bytes: &[u8],
) -> usize
    ensures { result ≡ prefix_len (T.passes test) bytes.now }
{
    if bytes.len() >= BLOCK_SIZE {
        run_by_lanes::<BLOCK_SIZE, T>(test, bytes)
    } else if bytes.len() >= HALF_BLOCK {
        run_by_lanes::<HALF_BLOCK, T>(test, bytes)
    } else {
        run_by_bytes(test, bytes)
    }
}

/// The same, `N` bytes at once. The last `N` end with the text, and may overlap the previous ones.
#[inline(always)]
fn run_by_lanes<const N: usize, T: LaneTest<N>>(test: T, bytes: &[u8]) -> usize
    requires { (0 < N) × (N ≤ 64) × (N ≤ length bytes.now) }
    ensures { result ≡ prefix_len (T.passes test) bytes.now }
{
    let mut at = 0;
    while bytes.len() - at > N {
        let run = test.run_in(bytes, at);
        if run < N {
            return at + run;
        }
        at += N;
    }
    let last = bytes.len() - N;
    last + test.run_in(bytes, last)
}

/// The same, byte by byte.
#[inline(always)]
fn run_by_bytes<T: ByteTest>(test: T, bytes: &[u8]) -> usize
    ensures { result ≡ prefix_len (T.passes test) bytes.now }
{
    let mut index = 0;
    while index < bytes.len() && test.is_passed(bytes[index]) {
        index += 1;
    }
    index
}

/// The index of the lowest set bit, or `lanes` if none is set.
#[inline(always)]
pub(crate) fn first_set(marks: u64, lanes: usize) -> usize
    ensures { result ≡ (if marks == 0 then lanes else trailing_zeros w64 marks) }
{
    if marks == 0 {
        lanes
    } else {
        marks.trailing_zeros() as usize
    }
}
