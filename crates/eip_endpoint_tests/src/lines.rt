mod lanes;
mod sources;
