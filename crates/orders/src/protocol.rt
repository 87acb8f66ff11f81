// Reading a body of this protocol as an order.
mod fields;
pub mod reading;
