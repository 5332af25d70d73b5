mod many;
mod one_post;
mod posted;
mod serving;
