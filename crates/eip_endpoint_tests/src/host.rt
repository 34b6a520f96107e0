mod folders;
mod lines;
mod network;
mod pieces;
mod streams;
