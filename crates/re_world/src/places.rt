//! Devices that are taken out of their places and put in.
ghost use Rattle.std.specs.Prelude.{◌≡◌, ◌<◌, Some, None, length, slice_set};
ghost use Rattle.re_terms.specs.Admission.{device_count};
ghost use Rattle.re_world.specs.State.{IsDeviceIn, IsPlaced, device_in};

use crate::World;
use re_device::Device;

impl World {
    /// Takes a device out of its place, none where it is down.
    pub(crate) fn take_out(&mut self, number: u8) -> Option<Device>
        requires { number < device_count self.old.program.decls.items }
        ensures device { result ≡ device_in self.old number }
        ensures placed { IsPlaced self.old.program number result }
        ensures rest { self.new ≡ record self.old { devices = slice_set self.old.devices number None } }
        ensures count { length self.old.devices ≡ device_count self.old.program.decls.items }
    {
        self.devices.replace(usize::from(number), None)
    }

    /// Puts a device into its place.
    pub(crate) fn put_in(&mut self, number: u8, device: Device)
        requires number { number < device_count self.old.program.decls.items }
        requires placed { IsDeviceIn self.old.program number device }
        ensures { self.new ≡ record self.old { devices = slice_set self.old.devices number (Some device) } }
    {
        self.devices.set(usize::from(number), Some(device));
    }
}
