mod log;
mod seats;
mod threads;
mod turns;
