mod files;
mod given;
mod lines;
mod workers;
