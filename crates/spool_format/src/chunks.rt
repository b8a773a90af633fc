//! The full chunks of a recording.
ghost use Rattle.std.specs.Prelude.{◌≡◌, ◌<◌, ◌≤◌, ◌++◌, ◌∷◌, [], if◌then◌else◌, IfOk, IfSome, IfNone, is_ok, get_or, length, map};
ghost use Rattle.std.specs.Arc.{arc_value};

use crate::sample::Words;
use sim_base::NoMemory;
use std::alloc::Global;
use std::marker::Model;
use std::sync::Arc;

/// How many chunks a block has.
const BLOCK: usize = 256;

/// As many chunks as a block has, shared as a whole.
#[derive(Debug, Drop)]
struct Block {
    chunks: Vec<Arc<Words>>,
}

impl Model for Block {
    ghost use Rattle.std.specs.Prelude.{ℕ, List, map};
    ghost use Rattle.std.specs.Arc.{arc_value};

    ghost Value = { List (List ℕ) };

    ghost view = { λ b. map arc_value b.chunks.items };
}

impl Block {
    fn new(chunks: Vec<Arc<Words>>) -> Block
        ensures { result ≡ map arc_value chunks.items }
    {
        Block { chunks }
    }

    fn get(&self, n: usize) -> &[u32]
        requires { n < length self.now }
        ensures { result.now ≡ get_or self.now n [] }
    {
        self.chunks[n].as_slice()
    }
}

/// The words of full chunks, which contracts see as their list. A chunk never changes, and is shared with each copy of the
/// list. All but the last few stand in blocks of 256, which are shared as a whole, so that a copy takes few handles.
#[derive(Debug, Drop)]
pub struct Chunks {
    blocks: Vec<Arc<Block>>,
    /// At most as many as a block has.
    recent: Vec<Arc<Words>>,
}

impl Model for Chunks {
    ghost use Rattle.std.specs.Prelude.{◌≡◌, ℕ, ◌++◌, List, flat_map, length, map};
    ghost use Rattle.std.specs.List.{All};
    ghost use Rattle.std.specs.Arc.{arc_value};

    ghost Value = { List (List ℕ) };

    ghost view = { λ c. flat_map (λ b. b) (map arc_value c.blocks.items) ++ map arc_value c.recent.items };

    ghost invariant = { λ c. All (λ b. length b ≡ 256) (map arc_value c.blocks.items) };
}

impl Chunks {
    /// No chunks.
    pub fn new(alloc: Global) -> Chunks
        ensures { result ≡ [] }
    {
        Chunks {
            blocks: Vec::new(alloc),
            recent: Vec::new(alloc),
        }
    }

    /// The words of a chunk, and none where there are fewer chunks.
    pub fn get(&self, n: usize) -> Option<&[u32]>
        ensures some { IfSome result (λ words. (n < length self.now) × (words.now ≡ get_or self.now n [])) }
        ensures none { IfNone result (length self.now ≤ n) }
    {
        let block = n / BLOCK;
        if block < self.blocks.len() {
            let block: &Block = &self.blocks[block];
            return Some(block.get(n % BLOCK));
        }
        let at = n - self.blocks.len() * BLOCK;
        if at < self.recent.len() {
            let chunk: &Words = &self.recent[at];
            Some(chunk.as_slice())
        } else {
            None
        }
    }

    /// Appends a chunk with a copy of these words. Where memory is wanting, the list is as before.
    pub fn push(&mut self, alloc: Global, words: &[u32]) -> Result<(), NoMemory>
        ensures { self.new ≡ (if is_ok result then self.old ++ words.now ∷ [] else self.old) }
    {
        if self.recent.len() == BLOCK {
            self.close_block(alloc)?;
        }
        let chunk = Words::new(Vec::from_slice(alloc, words)?);
        self.recent.push(Arc::new(alloc, chunk)?)?;
        Ok(())
    }

    /// The same list, which shares the chunks.
    pub fn share(&self, alloc: Global) -> Result<Chunks, NoMemory>
        ensures { IfOk result (λ copy. copy ≡ self.now) }
    {
        let blocks = handles(alloc, &self.blocks)?;
        let recent = handles(alloc, &self.recent)?;
        Ok(Chunks { blocks, recent })
    }

    /// Makes a block of the chunks that stand in none.
    fn close_block(&mut self, alloc: Global) -> Result<(), NoMemory>
        ensures { self.new ≡ self.old }
    {
        if self.recent.len() == BLOCK {
            let block = Arc::new(alloc, Block::new(handles(alloc, &self.recent)?))?;
            self.blocks.push(block)?;
            self.recent.clear();
        }
        Ok(())
    }
}

/// Handles of the same values.
fn handles<T: Drop>(alloc: Global, shared: &[Arc<T>]) -> Result<Vec<Arc<T>>, NoMemory>
    ensures { IfOk result (λ copies. map arc_value copies.items ≡ map arc_value shared.now) }
{
    let mut copies = Vec::with_capacity(alloc, shared.len())?;
    for handle in shared {
        copies.push(Arc::try_clone(handle)?)?;
    }
    Ok(copies)
}
