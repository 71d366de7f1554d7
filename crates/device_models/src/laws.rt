//! What holds of the ports by their definition.

ghost use Rattle.std.specs.Prelude.{◌≡◌, ℕ};
ghost use Rattle.machine_defs.specs.Devices.{input_of, output_of};
ghost use Rattle.machine_defs.specs.Views.Ports.{class_of, device_after, device_given};
ghost use Rattle.nook_data.specs.declared.devices.DeviceState.{DeviceState};

/// A law: a device keeps its class, whatever its driver does at a port.
pub fn ports_keep_the_class()
    ensures input { (port : ℕ) (d : DeviceState)
        → class_of (device_given (input_of port d) d) ≡ class_of d }
    ensures output { (port word : ℕ) (d : DeviceState)
        → class_of (device_after (output_of port word d) d) ≡ class_of d }
{}
