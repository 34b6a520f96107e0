mod groups;
mod joins;
mod keys;
mod queues;
mod sleepers;
