ghost use Rattle.std.specs.Prelude.{◌≡◌, ◌++◌, IfOk, OnOk, decimal};
ghost use Rattle.mb_commands.specs.Lines.{made_line, refused_line, sound_line};

use mb_kinds::Seq;
use std::alloc::{AllocError, Global};

/// The bytes of a printed line. A contract sees the list.
pub type Line = Seq<u8>;

/// `made B blocks I inodes`, what `mkfs` prints. The only error is want of memory.
pub fn made_line(alloc: Global, blocks: u32, inodes: u32) -> Result<Line, AllocError>
    ensures { IfOk result (λ line. line ≡ made_line blocks inodes) }
{
    let mut line = Vec::new(alloc);
    push_field(alloc, &mut line, b"made ", blocks)?;
    push_field(alloc, &mut line, b" blocks ", inodes)?;
    line.extend_from_slice(b" inodes\n")?;
    Ok(Line::from_vec(line))
}

/// `sound nodes N held H free F`, what `check` prints of a volume. The only error is want of memory.
pub fn sound_line(alloc: Global, nodes: u32, held: u32, free: u32) -> Result<Line, AllocError>
    ensures { IfOk result (λ line. line ≡ sound_line nodes held free) }
{
    let mut line = Vec::new(alloc);
    push_field(alloc, &mut line, b"sound nodes ", nodes)?;
    push_field(alloc, &mut line, b" held ", held)?;
    push_field(alloc, &mut line, b" free ", free)?;
    line.push(b'\n')?;
    Ok(Line::from_vec(line))
}

/// `volume refused: block B rule R`. The only error is want of memory.
pub fn refused_line(alloc: Global, block: u32, rule: u8) -> Result<Line, AllocError>
    ensures { IfOk result (λ line. line ≡ refused_line block rule) }
{
    let mut line = Vec::new(alloc);
    push_field(alloc, &mut line, b"volume refused: block ", block)?;
    push_field(alloc, &mut line, b" rule ", u32::from(rule))?;
    line.push(b'\n')?;
    Ok(Line::from_vec(line))
}

// Appends a label and a number in decimal.
fn push_field(
    alloc: Global,
    line: &mut Vec<u8>,
    label: &[u8],
    number: u32,
) -> Result<(), AllocError>
    ensures { OnOk result (line.new.items ≡ line.old.items ++ label.now ++ decimal number) }
{
    let digits = format!(in alloc; "{number}")?;
    line.extend_from_slice(label)?;
    line.extend_from_slice(digits.as_bytes())?;
    Ok(())
}
