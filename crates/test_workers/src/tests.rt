mod clients;
mod many;
mod meeting;
mod serving;
mod two;
