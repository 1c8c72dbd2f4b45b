pub(crate) mod connect;
mod departures;
mod duplexing;
mod events;
mod forces;
mod losses;
mod reach;
mod rebuilds;
