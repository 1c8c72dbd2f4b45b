mod copies;
mod printing;
mod reading;
mod reports;
