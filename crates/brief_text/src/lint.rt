// Which devices and data bytes briefs declare, and whether an item names them: for people, in hints. No clause speaks
// of it.

use crate::naming::copied;
use crate::syntax::{DataSyntax, FrameSyntax, MadeSyntax, NameFound, TailSyntax, Value};
use indexmap::IndexMap;
use message_tree::{Address, Pattern};
use origins::{Device, NamedByte, Spot};
use plan_core::Name;
use std::alloc::{AllocError, Global};

/// What is declared, in the order of the briefs.
pub(crate) struct Uses {
    alloc: Global,
    devices: IndexMap<Name, Device>,
    bytes: IndexMap<Name, NamedByte>,
}

// Written out, so that one call lets it go.
impl Drop for Uses {
    fn drop(self) {
        let Self {
            alloc: _,
            devices: _,
            bytes: _,
        } = self;
    }
}

impl Uses {
    /// Nothing.
    pub(crate) fn new(alloc: Global) -> Uses {
        Uses {
            alloc,
            devices: IndexMap::new(alloc),
            bytes: IndexMap::new(alloc),
        }
    }

    /// A further device of this name in this file.
    pub(crate) fn device(
        &mut self,
        named: &NameFound,
        file: u32,
        address: Address,
    ) -> Result<(), AllocError> {
        let device = Device {
            name: copied(self.alloc, &named.name)?,
            address,
            spot: spot_of(named, file),
            is_used: false,
        };
        self.devices
            .insert(copied(self.alloc, &named.name)?, device)?;
        Ok(())
    }

    /// A further data byte of this name in this file.
    pub(crate) fn byte(
        &mut self,
        named: &NameFound,
        file: u32,
        bits: Pattern,
    ) -> Result<(), AllocError> {
        let byte = NamedByte {
            name: copied(self.alloc, &named.name)?,
            bits,
            spot: spot_of(named, file),
            is_used: false,
        };
        self.bytes.insert(copied(self.alloc, &named.name)?, byte)?;
        Ok(())
    }

    /// The names in these frames are used.
    #[cycle(uses)]
    pub(crate) fn frame(&mut self, frame: &FrameSyntax) {
        match frame {
            FrameSyntax::Write { to, refused, acked } => {
                self.address(to);
                self.tail(refused);
                self.payload(acked);
            }
            FrameSyntax::Read {
                to,
                refused,
                after,
                ..
            } => {
                self.address(to);
                self.tail(refused);
                self.tail(after);
            }
        }
    }

    #[cycle(uses)]
    fn payload(&mut self, payload: &DataSyntax) {
        match payload {
            DataSyntax::Byte {
                bits,
                refused,
                acked,
                ..
            } => {
                if let Value::Named(named) = bits {
                    if let Some(byte) = self.bytes.get_mut(&named.name) {
                        byte.is_used = true;
                    }
                }
                self.tail(refused);
                self.payload(acked);
            }
            DataSyntax::Made {
                made,
                refused,
                acked,
            } => {
                if let MadeSyntax::Header { to, .. } = made {
                    self.address(to);
                }
                self.tail(refused);
                self.payload(acked);
            }
            DataSyntax::Last(tail) => self.tail(tail),
        }
    }

    #[cycle(uses)]
    fn tail(&mut self, tail: &TailSyntax) {
        match tail {
            TailSyntax::Stop => {}
            TailSyntax::Frames(frame) => self.frame(frame),
        }
    }

    /// The devices with these names are used: a group has them.
    pub(crate) fn devices(&mut self, names: &[Name]) {
        for name in names {
            if let Some(device) = self.devices.get_mut(name) {
                device.is_used = true;
            }
        }
    }

    /// The device that is named in the place of an address is used.
    pub(crate) fn address(&mut self, to: &Value<Address>) {
        if let Value::Named(named) = to {
            if let Some(device) = self.devices.get_mut(&named.name) {
                device.is_used = true;
            }
        }
    }

    /// All devices.
    pub(crate) fn all_devices(&self) -> Result<Vec<Device>, AllocError> {
        let mut devices = Vec::new(self.alloc);
        for device in self.devices.values() {
            devices.push(Device {
                name: copied(self.alloc, &device.name)?,
                address: device.address,
                spot: device.spot,
                is_used: device.is_used,
            })?;
        }
        Ok(devices)
    }

    /// All data bytes.
    pub(crate) fn all_bytes(&self) -> Result<Vec<NamedByte>, AllocError> {
        let mut bytes = Vec::new(self.alloc);
        for byte in self.bytes.values() {
            bytes.push(NamedByte {
                name: copied(self.alloc, &byte.name)?,
                bits: byte.bits,
                spot: byte.spot,
                is_used: byte.is_used,
            })?;
        }
        Ok(bytes)
    }
}

fn spot_of(named: &NameFound, file: u32) -> Spot {
    Spot {
        file,
        line: named.line,
    }
}
