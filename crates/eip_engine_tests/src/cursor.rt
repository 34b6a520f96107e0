mod answered;
mod attempts;
mod parts;
mod runs;
mod shown;
mod steps;
