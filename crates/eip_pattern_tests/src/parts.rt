// The parts of a message, and lists of recipients.

mod batches;
mod recipients;
mod splits;
