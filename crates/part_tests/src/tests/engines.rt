mod cache;
mod list;
mod lock;
mod queue;
