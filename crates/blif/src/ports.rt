//! Ports as values: bits named `key[0]`, `key[1]`, .. are one value `key`.

use crate::statements::Model;
use circuit::Port;
use std::alloc::{AllocError, Global};
use std::collections::HashMap;

/// A bit of a value: its place there as its name tells it, and its net.
#[derive(Clone, Copy, Debug)]
pub struct Bit {
    pub place: u32,
    pub net: u32,
}

/// A value: its name, and its bits from the lowest on.
#[derive(Debug, Drop)]
pub struct Value<'a> {
    pub name: &'a str,
    pub bits: Vec<Bit>,
}

/// The name of a vector and the place of a bit there, of a name such as `key[3]`.
fn split(name: &str) -> Option<(&str, u32)> {
    let (stem, place) = name.strip_suffix(']')?.rsplit_once('[')?;
    if stem.is_empty() {
        return None;
    }
    let place = place.parse::<u32>().ok()?;
    Some((stem, place))
}

/// The values of the nets of ports, in the order of their first bits.
pub fn values<'a>(
    alloc: Global,
    model: &Model<'a>,
    nets: &[u32],
) -> Result<Vec<Value<'a>>, AllocError> {
    let mut values: Vec<Value<'a>> = Vec::new(alloc);
    let mut places: HashMap<&'a str, usize> = HashMap::new(alloc);
    for net in nets {
        let Some(word) = model.nets.get(*net as usize).copied() else {
            continue;
        };
        let (name, place) = split(word.text).unwrap_or((word.text, 0));
        let number = match places.get(&name).copied() {
            Some(number) => number,
            None => {
                places.insert(name, values.len())?;
                values.push(Value {
                    name,
                    bits: Vec::new(alloc),
                })?;
                values.len() - 1
            }
        };
        if let Some(value) = values.get_mut(number) {
            value.bits.push(Bit { place, net: *net })?;
        }
    }
    for value in values.iter_mut() {
        value.bits.sort_by_key(|bit| bit.place)?;
    }
    Ok(values)
}

/// The ports of values. A value of one bit has the whole name of its net.
pub fn ports(
    alloc: Global,
    model: &Model<'_>,
    values: &[Value<'_>],
) -> Result<Vec<Port>, AllocError> {
    let mut ports = Vec::new(alloc);
    for value in values {
        let name = match value.bits.as_slice() {
            [bit] => match model.nets.get(bit.net as usize) {
                Some(word) => word.text,
                None => value.name,
            },
            _ => value.name,
        };
        ports.push(Port {
            name: String::from_str(alloc, name)?,
            width: u32::try_from(value.bits.len()).map_err(|_| AllocError)?,
        })?;
    }
    Ok(ports)
}

/// The nets of the bits of values, in order.
pub fn nets(alloc: Global, values: &[Value<'_>]) -> Result<Vec<u32>, AllocError> {
    let mut nets = Vec::new(alloc);
    for value in values {
        for bit in &value.bits {
            nets.push(bit.net)?;
        }
    }
    Ok(nets)
}
