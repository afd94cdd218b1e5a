//! Calls on sources and assembly texts.
ghost use Rattle.std.specs.Prelude.{◌≡◌, ◌≢◌};
ghost use Rattle.ft_asm.specs.Refusals.{IsAssembly};
ghost use Rattle.ft_embed.specs.Texts.{Given, IsAsmBroken, IsAsmRefused, IsCompiled, IsMalformed, IsSourceRefused, IsText};
ghost use Rattle.ft_embed.specs.Verdicts.{nothing};

use ft_embed::{Refused, assemble_into, compile_into, disassemble_into};
use std::alloc::Global;

/// Compiles a source, and writes the bytes of its object in version 2 of the format. Returns 0 on success; 15 if they
/// do not fit, with the number needed in `made`; 6 for a source that is refused; or 5 if memory runs out.
#[unsafe(no_mangle)]
pub extern "C" fn talft_compile(
    alloc: Global,
    text: &[u8],
    out: &mut [u8],
    made: &mut usize,
    why: &mut Refused,
) -> u32
    ensures given { result ≢ 5 → result ≢ 6 → Given (IsCompiled text.now) out.old out.new made.new result }
    ensures refused { result ≡ 6 → IsSourceRefused text.now why.new }
    ensures kept { result ≢ 0 → out.new ≡ out.old }
    ensures unmade { result ≢ 0 → result ≢ 15 → made.new ≡ 0 }
    ensures unrefused { result ≢ 6 → why.new ≡ nothing }
{
    let written = compile_into(alloc, text, out);
    *made = written.made;
    *why = written.why;
    written.status
}

/// Assembles a text, and writes the bytes of its object in version 2 of the format. Returns 0 on success; 15 if they do
/// not fit; 12 for a text that is refused; 7 if the tables that the text describes break a rule of the format; or 5 if
/// memory runs out.
#[unsafe(no_mangle)]
pub extern "C" fn talft_assemble(
    alloc: Global,
    text: &[u8],
    out: &mut [u8],
    made: &mut usize,
    why: &mut Refused,
) -> u32
    ensures given { result ≢ 5 → result ≢ 7 → result ≢ 12 → Given (IsAssembly text.now) out.old out.new made.new result }
    ensures refused { result ≡ 12 → IsAsmRefused text.now why.new }
    ensures broken { result ≡ 7 → IsAsmBroken text.now why.new }
    ensures kept { result ≢ 0 → out.new ≡ out.old }
    ensures unmade { result ≢ 0 → result ≢ 15 → made.new ≡ 0 }
    ensures unrefused { result ≢ 7 → result ≢ 12 → why.new ≡ nothing }
{
    let written = assemble_into(alloc, text, out);
    *made = written.made;
    *why = written.why;
    written.status
}

/// Writes the assembly text of the object that bytes spell. Returns 0 on success; 15 if the text does not fit; 7 for
/// bytes that spell no object; or 5 if memory runs out.
#[unsafe(no_mangle)]
pub extern "C" fn talft_disassemble(
    alloc: Global,
    bytes: &[u8],
    out: &mut [u8],
    made: &mut usize,
    why: &mut Refused,
) -> u32
    ensures given { result ≢ 5 → result ≢ 7 → Given (IsText bytes.now) out.old out.new made.new result }
    ensures malformed { result ≡ 7 → IsMalformed bytes.now why.new }
    ensures kept { result ≢ 0 → out.new ≡ out.old }
    ensures unmade { result ≢ 0 → result ≢ 15 → made.new ≡ 0 }
    ensures unrefused { result ≢ 7 → why.new ≡ nothing }
{
    let written = disassemble_into(alloc, bytes, out);
    *made = written.made;
    *why = written.why;
    written.status
}
