mod change_bytes;
mod claims;
mod damage;
mod plain;
mod point_bytes;
mod range_bytes;
