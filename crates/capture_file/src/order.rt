/// The order of the octets of a number: the most significant octet first, or the least significant one.
#[derive(Clone, Copy)]
pub enum Order {
    Big,
    Little,
}
