//! The command `upgrade`.
ghost use Rattle.std.specs.Prelude.{◌≡◌, ◌≢◌};
ghost use Rattle.ft_tool.specs.Objects.{UpgradesObject, OverBytes};
ghost use Rattle.ft_tool.specs.Endings.{Ends};

use crate::ending::{Ending, put_object, refuse_bytes, refuse_object};
use crate::load::{OBJECT_LIMIT, fault_of};
use crate::over_file::FileCommand;
use ft_edge::Sink;
use ft_object::{ObjectError, decode};
use std::alloc::Global;

/// Decodes an object and writes it in version 2 of the format.
fn upgrade_bytes<K: Sink>(alloc: Global, bytes: &[u8], out: &mut K) -> Ending
    ensures { Ends result (OverBytes UpgradesObject bytes.now)
        (K.log out.old) (K.log out.new) ⊥ }
{
    match decode(alloc, bytes) {
        Ok(object) => put_object(alloc, &object, out),
        Err(error) => refuse_object(fault_of(error), out),
    }
}

/// The command that writes the object in a file in version 2 of the format.
#[derive(Drop)]
pub(crate) struct UpgradeCommand<'w> {
    pub object: &'w str,
}

impl<'w> FileCommand for UpgradeCommand<'w> {
    ghost use Rattle.std.specs.Prelude.{refl};
    ghost use Rattle.ft_command.specs.Commands.{Upgrades};
    ghost use Rattle.ft_tool.specs.Objects.{UpgradesObject, OverBytes};

    ghost request = { λ c. Upgrades c.object.now };

    ghost file = { λ c. c.object.now };

    ghost limit = { λ c. 67108864 };

    ghost answer = { λ c. OverBytes UpgradesObject };

    ghost is_over_file = { λ c. record { answers = λ told files script bytes a is h. (bytes, (is, h)); comes = λ told files. refl; loads = λ told files early asked asked' made. made } };

    fn file(&self) -> &str {
        self.object
    }

    fn limit(&self) -> usize {
        OBJECT_LIMIT
    }

    fn over_bytes<K: Sink>(&self, alloc: Global, bytes: &[u8], out: &mut K) -> Ending {
        upgrade_bytes(alloc, bytes, out)
    }

    fn refuse_long<K: Sink>(&self, out: &mut K) -> Ending {
        refuse_bytes(ObjectError::Length { at: OBJECT_LIMIT }, out)
    }
}
