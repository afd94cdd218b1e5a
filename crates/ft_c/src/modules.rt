//! Links modules.
ghost use Rattle.std.specs.Prelude.{◌≡◌, ◌≢◌, ◌⊎◌};
ghost use Rattle.ft_embed.specs.Links.{IsLinkedOf, IsUnlinked};
ghost use Rattle.ft_embed.specs.Texts.{Given};
ghost use Rattle.ft_embed.specs.Verdicts.{nothing};

use ft_embed::{Module, Refused, link_into};
use std::alloc::Global;

/// Links modules as a link map says, and writes the object in version 2 of the format. The map names the file of each
/// module, and the first module in the array with that name is used. Returns 0 on success; 15 if the bytes do not fit;
/// 13 if the map is refused or the modules cannot be linked; 7 or 8 if the bytes of a module are refused; 20 if the map
/// gives a name that no module has; or 5 if memory runs out.
#[unsafe(no_mangle)]
pub extern "C" fn talft_link(
    alloc: Global,
    map: &[u8],
    modules: &[Module],
    out: &mut [u8],
    made: &mut usize,
    module: &mut u32,
    why: &mut Refused,
) -> u32
    ensures linked { (result ≡ 0) ⊎ (result ≡ 15) → Given (IsLinkedOf modules.now map.now) out.old out.new made.new result }
    ensures unlinked { result ≢ 0 → result ≢ 5 → result ≢ 15 → IsUnlinked modules.now map.now (record { status = result; «module» = «module».new; why = why.new }) }
    ensures kept { result ≢ 0 → out.new ≡ out.old }
    ensures unmade { result ≢ 0 → result ≢ 15 → made.new ≡ 0 }
    ensures unrefused { (result ≡ 0) ⊎ (result ≡ 5) ⊎ (result ≡ 15) → why.new ≡ nothing }
{
    let answer = link_into(alloc, map, modules, out);
    *made = answer.written.made;
    *module = answer.module;
    *why = answer.written.why;
    answer.written.status
}
