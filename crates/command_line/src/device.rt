//! The files and devices of the command.

ghost use Rattle.std.specs.Prelude.{◌≡◌};
ghost use Rattle.command_line.specs.Explained.{device_line};

/// A file that does not open, or on which a read or a write fails.
#[derive(Clone, Copy, Debug, PartialEq, Eq)]
pub enum Device {
    Registry,
    Value,
    Output,
}

impl Device {
    /// Returns the line that reports its failure.
    pub fn line(self) -> &'static str
        ensures { result.now ≡ device_line self }
    {
        match self {
            Device::Registry => "scaleview: device: registry\n",
            Device::Value => "scaleview: device: value\n",
            Device::Output => "scaleview: device: output\n",
        }
    }
}
