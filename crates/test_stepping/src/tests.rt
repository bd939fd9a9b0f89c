mod later;
mod orders;
mod steps;
