//! Copies of calls.
ghost use Rattle.std.specs.Prelude.{◌≡◌, IfOk};

use crate::task::Call;
use scons_base::Memory;

impl Call {
    pub(crate) fn copy(&self) -> Result<Call, Memory>
        ensures { IfOk result (λ c. c ≡ self.now) }
    {
        Ok(Call {
            prefix: self.prefix.copy()?,
            list: self.list.copy()?,
            suffix: self.suffix.copy()?,
            directories: self.directories,
            room: self.room,
        })
    }
}
