mod documents;
mod lines;
