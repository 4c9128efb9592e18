//! How deep the arrays and objects of a line nest, told by its bytes before it is read: the reader of JSON takes stack for
//! each level.
//!
//! Two looks tell it. The first counts in blocks of bytes and decides most lines at a small cost; the second goes byte by
//! byte, along the lines that the first leaves open.
ghost use Rattle.std.specs.Prelude.{◌≡◌, ◌≤◌, ◌+◌, ◌++◌, ◌==◌, ℕ, List, true, length, count_by, if◌then◌else◌};
ghost use Rattle.std.specs.Option.{IfSome};
ghost use Rattle.script_text.specs.Nesting as nest;
ghost use Rattle.script_text.specs.inner.Blocks as blocks;

/// How deep the arrays and objects of a line may nest. Those of no form nest deeper than three.
pub(crate) const MAX_NESTING: u8 = 8;

/// How many bytes a block of the first look has: so few that no good line opens more in one than may nest.
const BLOCK: usize = 32;

/// Where the second look along a line stands.
#[derive(Clone, Copy)]
enum StringState {
    Outside,
    InString,
    BehindBackslash,
}

/// Whether the arrays and objects of the line nest at most `MAX_NESTING` deep (`is_shallow`).
pub(crate) fn is_shallow(line: &[u8]) -> bool
    ensures { result ≡ nest.is_shallow line.now }
{
    if is_shallow_by_blocks(line) {
        return true;
    }
    is_shallow_by_bytes(line)
}

/// Where the first look stands, between two blocks.
#[derive(Clone, Copy)]
struct BlockState {
    /// Whether a string goes on here.
    in_string: bool,
    /// How many arrays and objects are open here at most.
    depth: u8,
}

/// Whether counts of the blocks alone tell that the line is shallow.
fn is_shallow_by_blocks(line: &[u8]) -> bool
    ensures { result ≡ true → nest.is_shallow line.now ≡ true }
{
    let mut place = BlockState {
        in_string: false,
        depth: 0,
    };
    let mut rest = line;
    'sweep: while rest.len() >= BLOCK {
        let (block, after) = rest.split_at(BLOCK);
        let Some(next) = behind(place, block) else {
            return false;
        };
        place = next;
        rest = after;
    }
    let Some(_deepest) = deepest(place.depth, counts_of(rest).opened) else {
        return false;
    };
    true
}

/// How many are open at most among bytes that open so many more, none where that is more than `MAX_NESTING`.
#[inline(always)]
fn deepest(depth: u8, opened: u8) -> Option<u8>
    ensures { IfSome result (λ most. (most ≡ depth + opened) × (most ≤ MAX_NESTING)) }
{
    let most = depth.checked_add(opened)?;
    if most > MAX_NESTING {
        return None;
    }
    Some(most)
}

/// The place behind a block, none where its counts alone don't tell that no more than `MAX_NESTING` are open in it: from
/// that place on, no bytes lead deeper than they do from this place on, over the block.
#[inline(always)]
fn behind(place: BlockState, block: &[u8]) -> Option<BlockState>
    requires { length block.now ≤ 255 }
    ensures { IfSome result (λ next. (rest : List ℕ) → blocks.fits_from next.in_string next.depth rest ≡ true
        → blocks.fits_from place.in_string place.depth (block.now ++ rest) ≡ true) }
{
    let counts = counts_of(block);
    let most = deepest(place.depth, counts.opened)?;
    if !place.in_string && counts.quotes == 0 {
        return Some(BlockState {
            in_string: false,
            depth: counts.opened + place.depth.saturating_sub(counts.closed),
        });
    }
    // What stands in a string may close none, so here none counts as closed.
    if counts.backslashes > 0 {
        return None;
    }
    Some(BlockState {
        in_string: turned(place.in_string, counts.quotes),
        depth: most,
    })
}

/// Whether a string goes on behind so many quotes.
fn turned(in_string: bool, quotes: u8) -> bool
    ensures { result ≡ blocks.turned quotes in_string }
{
    if quotes % 2 == 1 {
        return !in_string;
    }
    in_string
}

/// How many bytes a block has of each kind that counts.
#[derive(Clone, Copy)]
struct Counts {
    opened: u8,
    closed: u8,
    quotes: u8,
    backslashes: u8,
}

/// The counts of a block, in one loop, which the compiler makes of vectors.
#[inline(always)]
fn counts_of(block: &[u8]) -> Counts
    requires { length block.now ≤ 255 }
    ensures opened { result.opened ≡ count_by nest.opens block.now }
    ensures closed { result.closed ≡ count_by nest.closes block.now }
    ensures quotes { result.quotes ≡ count_by (λ byte. byte == 34) block.now }
    ensures backslashes { result.backslashes ≡ count_by (λ byte. byte == 92) block.now }
{
    let mut opened: u8 = 0;
    let mut closed: u8 = 0;
    let mut quotes: u8 = 0;
    let mut backslashes: u8 = 0;
    for byte in block {
        let byte = *byte;
        opened += one_where(opens(byte));
        closed += one_where(closes(byte));
        quotes += one_where(byte == b'"');
        backslashes += one_where(byte == b'\\');
    }
    Counts {
        opened,
        closed,
        quotes,
        backslashes,
    }
}

/// 1 where the test holds, else 0.
#[inline(always)]
fn one_where(test: bool) -> u8
    ensures value { result ≡ (if test then 1 else 0) }
    ensures small { result ≤ 1 }
{
    test as u8
}

/// The same as `is_shallow`, by each byte.
fn is_shallow_by_bytes(line: &[u8]) -> bool
    ensures { result ≡ nest.is_shallow line.now }
{
    let mut standing = StringState::Outside;
    let mut depth: u8 = 0;
    for byte in line {
        let byte = *byte;
        match standing {
            StringState::Outside => {
                if opens(byte) {
                    if depth >= MAX_NESTING {
                        return false;
                    }
                    depth += 1;
                } else if closes(byte) {
                    depth = depth.saturating_sub(1);
                } else if byte == b'"' {
                    standing = StringState::InString;
                }
            }
            StringState::InString => {
                if byte == b'"' {
                    standing = StringState::Outside;
                } else if byte == b'\\' {
                    standing = StringState::BehindBackslash;
                }
            }
            StringState::BehindBackslash => standing = StringState::InString,
        }
    }
    true
}

/// Whether the byte opens an array or an object, where it stands in no string.
pub(crate) fn opens(byte: u8) -> bool
    ensures { result ≡ nest.opens byte }
{
    byte == b'[' || byte == b'{'
}

/// Whether it closes one there.
pub(crate) fn closes(byte: u8) -> bool
    ensures { result ≡ nest.closes byte }
{
    byte == b']' || byte == b'}'
}
