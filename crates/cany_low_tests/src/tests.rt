mod arbitration;
mod frames;
mod plain;
mod streams;
