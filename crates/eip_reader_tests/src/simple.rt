mod sizes;
mod support;
mod texts;
mod values;
