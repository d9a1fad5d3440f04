//! Texts, which are laid of blocks that were made before.

use crate::chance::chance_t;
use crate::phrases::push_phrases;
use crate::templates::kind_t;
use std::alloc::{AllocError, Global};

/// How many different blocks there are of a kind.
const BLOCKS: usize = 64;

/// The bytes of a kind: what stands before the blocks and after them, and the blocks.
#[derive(Drop)]
pub struct pool_t {
    head: Vec<u8>,
    blocks: Vec<Vec<u8>>,
    tail: Vec<u8>,
    /// Whether they are in UTF-16.
    wide: bool,
    /// How many blocks a text has, about.
    pub count: usize,
}

/// Appends a unit of UTF-16, its low byte first.
fn push_unit(out: &mut Vec<u8>, unit: u32) -> Result<(), AllocError> {
    out.push((unit % 256) as u8)?;
    out.push((unit / 256 % 256) as u8)?;
    Ok(())
}

/// Appends a text in UTF-8 or UTF-16.
fn push_text(out: &mut Vec<u8>, text: &str, wide: bool) -> Result<(), AllocError> {
    if !wide {
        return out.extend_from_slice(text.as_bytes());
    }
    for c in text.chars() {
        let code = c as u32;
        if code < 0x1_0000 {
            push_unit(out, code)?;
        } else {
            push_unit(out, 0xD800 + (code - 0x1_0000) / 0x400)?;
            push_unit(out, 0xDC00 + (code - 0x1_0000) % 0x400)?;
        }
    }
    Ok(())
}

/// The bytes that a template makes.
fn made(
    alloc: Global,
    template: &str,
    kind: kind_t,
    chance: &mut chance_t,
) -> Result<Vec<u8>, AllocError> {
    let mut text = String::new(alloc);
    push_phrases(&mut text, template, kind.tongue, chance)?;
    let mut bytes = Vec::new(alloc);
    push_text(&mut bytes, text.as_str(), kind.wide)?;
    Ok(bytes)
}

impl pool_t {
    /// What texts of a kind are laid of.
    pub fn new(alloc: Global, kind: kind_t, chance: &mut chance_t) -> Result<pool_t, AllocError> {
        let mut blocks = Vec::new(alloc);
        for _ in 0..BLOCKS {
            blocks.push(made(alloc, kind.block, kind, chance)?)?;
        }
        Ok(pool_t {
            head: made(alloc, kind.head, kind, chance)?,
            blocks,
            tail: made(alloc, kind.tail, kind, chance)?,
            wide: kind.wide,
            count: kind.blocks,
        })
    }

    /// Appends a block.
    fn push_block(&self, out: &mut Vec<u8>, chance: &mut chance_t) -> Result<(), AllocError> {
        match self.blocks.get(chance.below(BLOCKS)) {
            Some(block) => out.extend_from_slice(block),
            None => Ok(()),
        }
    }

    /// Lays a text of so many blocks, of which each is chosen by chance. It begins with a comment that has its number,
    /// so no two are alike.
    pub fn lay(
        &self,
        out: &mut Vec<u8>,
        chance: &mut chance_t,
        number: usize,
        count: usize,
    ) -> Result<(), AllocError> {
        out.clear();
        if self.wide {
            push_unit(out, 0xFEFF)?;
        }
        let first = format!(in *out.allocator(); "# {number}\n")?;
        push_text(out, first.as_str(), self.wide)?;
        out.extend_from_slice(&self.head)?;
        for _ in 0..count {
            self.push_block(out, chance)?;
        }
        out.extend_from_slice(&self.tail)
    }
}
