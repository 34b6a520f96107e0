mod routes;
mod source;
